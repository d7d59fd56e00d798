// The number and the values of each call's answer (rules 2.1 and 2.2), as the calls from C give them.
#![tactic(auto)]

ghost use Rattle.std.specs.Prelude.{◌≡◌};
ghost use Rattle.capi_values.specs.Values.{given, refusal_values, answer_values, length_values, accepted_command_values, accepted_response_values};
ghost use Rattle.capi_values.specs.ChainingValues.{command_part_values, given_fragment_values, response_part_values};

use apdu::{Header, StatusWord};
use chain_command::CommandPart;
use chain_response::{ResponseFragment, ResponsePart};
use message_answer::MORE_SW1;
use message_result::{AcceptedCommand, AcceptedResponse};
use refusal::Refusal;

// The C interface gives 0 and false where an answer has no such value.
#[derive(Clone, Copy, PartialEq, Eq)]
pub struct Values {
    // 0 where the call is not refused.
    pub number: u32,
    // Of what stands in the caller's buffer, or the size needed.
    pub len: usize,
    // SW1 * 256 + SW2.
    pub status: u16,
    // Whether Le is present.
    pub le: bool,
    // Of a command that is whole.
    pub header: Header,
    // The index of a field where the next fragment starts.
    pub next: usize,
}

// No Le, no header and no next index.
fn given(number: u32, len: usize, status: u16) -> Values
    ensures { result ≡ given number len status }
{
    Values {
        number,
        len,
        status,
        le: false,
        header: Header {
            ins: 0,
            p1: 0,
            p2: 0,
        },
        next: 0,
    }
}

// An answer, or what it gives or refuses with: its number and values.
pub trait HasValues {
    ghost use Rattle.capi_values.specs.declared.Values.{Values};

    ghost values: { Self → Values };

    fn values(self) -> Values
        ensures { result ≡ values self };
}

impl HasValues for Refusal {
    ghost values = { refusal_values };

    fn values(self) -> Values {
        given(self.number(), self.size(), self.status())
    }
}

impl<T: HasValues> HasValues for Result<T, Refusal> {
    ghost values = { answer_values T.values };

    fn values(self) -> Values {
        match self {
            Ok(given) => given.values(),
            Err(refusal) => refusal.values(),
        }
    }
}

// The length of a field or of an APDU.
impl HasValues for usize {
    ghost values = { length_values };

    fn values(self) -> Values {
        given(0, self, 0)
    }
}

impl HasValues for AcceptedCommand {
    ghost values = { accepted_command_values };

    fn values(self) -> Values {
        Values {
            le: self.le,
            ..given(0, self.len, 0)
        }
    }
}

impl HasValues for AcceptedResponse {
    ghost values = { accepted_response_values };

    fn values(self) -> Values {
        given(0, self.len, self.status.number())
    }
}

impl HasValues for CommandPart {
    ghost values = { command_part_values };

    fn values(self) -> Values {
        match self {
            CommandPart::More(n, status) => given(0, n, status.number()),
            CommandPart::Whole(n, header) => Values {
                header,
                ..given(0, n, 0)
            },
        }
    }
}

impl HasValues for ResponseFragment {
    ghost values = { given_fragment_values };

    fn values(self) -> Values {
        Values {
            next: self.next,
            ..given(0, self.len, 0)
        }
    }
}

impl HasValues for ResponsePart {
    ghost values = { response_part_values };

    fn values(self) -> Values {
        match self {
            ResponsePart::More(n, le) => {
                let status = StatusWord {
                    sw1: MORE_SW1,
                    sw2: le,
                };
                given(0, n, status.number())
            }
            ResponsePart::Whole(n, status) => given(0, n, status.number()),
        }
    }
}
