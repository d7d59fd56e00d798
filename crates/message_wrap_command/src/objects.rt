// The objects of a command that its MAC covers, with the data encrypted (SP 800-73-4 Part 2, 4.2.2 and 4.2.3).
ghost use Rattle.std.specs.Prelude.{◌+◌, ◌≤◌, length};
ghost use Rattle.octets.specs.Write.{Wrote};
ghost use Rattle.field_write.specs.Objects.{command_objects};
ghost use Rattle.message_ciphers.specs.Aes.{aes_ciphers};
ghost use Rattle.message_protocol.specs.Command.{command_ciphertext};
ghost use Rattle.message_wrap_command.specs.WrittenCommand.{MayWriteCommand};

use field_write::put_command_objects;
use message_counter::command_counter;
use message_encrypt::encrypt_text;
use message_key::SessionKey;
use session::Session;

// The objects that the MAC covers, from index 0 on; the index behind them.
pub fn put_objects(session: Session, le: bool, data: &[u8], out: &mut [u8]) -> usize
    requires { MayWriteCommand session le (length «data».now) (length out.old) }
    ensures objects { Wrote out.old 0 (command_objects (command_ciphertext aes_ciphers session «data».now) le) result out.new }
    ensures room { result + 10 ≤ length out.old }
{
    let Session { suite, sk_enc, .. } = session;
    let key = SessionKey {
        suite,
        bytes: sk_enc,
    };
    let counter = command_counter(session.count + 1);
    // Fixed memory: the project allows no heap.
    let mut text = [0u8; 2048];
    let n = encrypt_text(key, counter, data, &mut text);
    put_command_objects(out, &text[..n], le)
}
