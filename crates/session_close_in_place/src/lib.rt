// Closing of the caller's session where it stands, over the closing by value (rule 3.4). It stands apart
// because it alone takes a session by reference, so that a caller in Rattle can close where the session stands. Nothing in the library calls it: the calls from C hold a
// session as bytes, and close by value.
#![tactic(auto)]

ghost use Rattle.std.specs.Prelude.{◌≡◌};
ghost use Rattle.session.specs.Session.{closed};

use session::Session;

// Whatever the session was, it is closed.
pub fn close_in_place(session: &mut Session)
    ensures { session.new ≡ closed session.old }
{
    *session = session.close();
}
