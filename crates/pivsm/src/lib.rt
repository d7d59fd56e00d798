// Exports the calls of c/include/pivsm.h for programs in C. Each export calls the function of its name and has its clauses. The C interface names each
// call and gives header, status word and keys one by one.
#![tactic(auto)]

mod close;
mod fragment_command;
mod fragment_response;
mod get_response;
mod opening;
mod reassemble_command;
mod reassemble_response;
mod unwrap_command;
mod unwrap_response;
mod wrap_command;
mod wrap_response;
