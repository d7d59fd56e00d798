// Exports the call of capi_close: what it promises and in which order it refuses stands there.
ghost use Rattle.std.specs.Prelude.{◌≡◌};
ghost use Rattle.octets.specs.Bytes.{IsBytes};
ghost use Rattle.capi_close.specs.Call.{given, left, pivsm_close};

#[unsafe(no_mangle)]
pub extern "C" fn pivsm_close(session: &mut [u8], len: &mut usize) -> u32
    ensures call { left result session.new len.new
        ≡ pivsm_close (given session.old len.old) }
    ensures bytes { IsBytes session.old }
{
    capi_close::pivsm_close(session, len)
}
