// Exports the calls of capi_open: what they promise and in which order they refuse stands there.
ghost use Rattle.std.specs.Prelude.{◌≡◌};
ghost use Rattle.session_suite.specs.StoredKeys.{KeysOfBytes, keys};
ghost use Rattle.capi_open.specs.Call.{given, left, pivsm_open_host, pivsm_open_card};

#[unsafe(no_mangle)]
pub extern "C" fn pivsm_open_host(
    suite: u32,
    enc: &[u8],
    mac: &[u8],
    rmac: &[u8],
    session: &mut [u8],
    len: &mut usize,
) -> u32
    ensures call { left result session.new len.new
        ≡ pivsm_open_host (given suite enc.now mac.now rmac.now
        session.old) }
    ensures bytes { KeysOfBytes (keys enc.now mac.now rmac.now) }
{
    capi_open::pivsm_open_host(suite, enc, mac, rmac, session, len)
}

#[unsafe(no_mangle)]
pub extern "C" fn pivsm_open_card(
    suite: u32,
    enc: &[u8],
    mac: &[u8],
    rmac: &[u8],
    session: &mut [u8],
    len: &mut usize,
) -> u32
    ensures call { left result session.new len.new
        ≡ pivsm_open_card (given suite enc.now mac.now rmac.now
        session.old) }
    ensures bytes { KeysOfBytes (keys enc.now mac.now rmac.now) }
{
    capi_open::pivsm_open_card(suite, enc, mac, rmac, session, len)
}
