// Which bytes of a session value are zero (rules 8.4 and 8.5).
ghost use Rattle.std.specs.Prelude.{◌≡◌};
ghost use Rattle.session_rules.specs.ZeroBytes.{all_zero, keys_end, keys_zero, mcvs_zero};

use session::Session;

// By the library's `all` testing the rules of a CS2 session took 1.6 times the instructions.
pub fn all_zero(bytes: &[u8]) -> bool
    ensures { result ≡ all_zero bytes.now }
{
    for b in bytes {
        if *b != 0 {
            return false;
        }
    }
    true
}

// Whether each key has the suite's length, and zeros behind it.
#[tactic(auto, using(session_suite::proofs::StoredKeys::key_length_most), unfolding(crate::specs::ZeroBytes::keys_end))]
pub fn keys_end(session: Session) -> bool
    ensures { result ≡ keys_end session }
{
    let n = session.suite.key_length();
    all_zero(&session.sk_enc[n..])
        && all_zero(&session.sk_mac[n..])
        && all_zero(&session.sk_rmac[n..])
}

#[tactic(auto, unfolding(crate::specs::ZeroBytes::keys_zero))]
pub fn keys_zero(session: Session) -> bool
    ensures { result ≡ keys_zero session }
{
    all_zero(&session.sk_enc) && all_zero(&session.sk_mac) && all_zero(&session.sk_rmac)
}

#[tactic(auto, unfolding(crate::specs::ZeroBytes::mcvs_zero))]
pub fn mcvs_zero(session: Session) -> bool
    ensures { result ≡ mcvs_zero session }
{
    all_zero(&session.command_mcv) && all_zero(&session.response_mcv)
}
