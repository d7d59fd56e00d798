// Exports the calls of c/include/primitives.h for programs in C. Each export calls the function of its name and has its clauses.
#![tactic(auto)]

ghost use Rattle.std.specs.Prelude.{◌≡◌};
ghost use Rattle.primitives.specs.Calls.{aes_answer, aes_encrypt_buffer, aes_decrypt_buffer, cbc_answer, cbc_encrypt_buffer, cbc_decrypt_buffer, cmac_answer, cmac_buffer};

#[unsafe(no_mangle)]
pub extern "C" fn pivsm_aes_encrypt(key: &[u8], block: &mut [u8]) -> u32
    ensures answer { result ≡ aes_answer key.now block.old }
    ensures buffer { block.new ≡ aes_encrypt_buffer key.now block.old }
{
    primitives::pivsm_aes_encrypt(key, block)
}

#[unsafe(no_mangle)]
pub extern "C" fn pivsm_aes_decrypt(key: &[u8], block: &mut [u8]) -> u32
    ensures answer { result ≡ aes_answer key.now block.old }
    ensures buffer { block.new ≡ aes_decrypt_buffer key.now block.old }
{
    primitives::pivsm_aes_decrypt(key, block)
}

#[unsafe(no_mangle)]
pub extern "C" fn pivsm_cbc_encrypt(key: &[u8], iv: &[u8], data: &mut [u8]) -> u32
    ensures answer { result ≡ cbc_answer key.now iv.now «data».old }
    ensures buffer { «data».new ≡ cbc_encrypt_buffer key.now iv.now «data».old }
{
    primitives::pivsm_cbc_encrypt(key, iv, data)
}

#[unsafe(no_mangle)]
pub extern "C" fn pivsm_cbc_decrypt(key: &[u8], iv: &[u8], data: &mut [u8]) -> u32
    ensures answer { result ≡ cbc_answer key.now iv.now «data».old }
    ensures buffer { «data».new ≡ cbc_decrypt_buffer key.now iv.now «data».old }
{
    primitives::pivsm_cbc_decrypt(key, iv, data)
}

// The MAC of head followed by rest.
#[unsafe(no_mangle)]
pub extern "C" fn pivsm_cmac(key: &[u8], head: &[u8], rest: &[u8], mac: &mut [u8]) -> u32
    ensures answer { result ≡ cmac_answer key.now mac.old }
    ensures buffer { mac.new ≡ cmac_buffer key.now head.now rest.now mac.old }
{
    primitives::pivsm_cmac(key, head, rest, mac)
}
