// FIPS 197's examples: the key expansions of appendix A, the cipher example of appendix B and the
// example vectors of appendix C, for AES-128 and AES-256. One value a line, under appendix C's
// names, which serve for appendix B too: `start` is its "Start of Round", `s_box` its "After
// SubBytes", `s_row` "After ShiftRows", `m_col` "After MixColumns", `k_sch` "Round Key Value".
#![tactic(auto)]

use aes_key_expansion::{ExpandedKey, KeySize};
use std::io;

type State = [[u8; 4]; 4];

// A 16-byte key stands in the first half.
const KEY_A1: [u8; 32] = *b"\x2b\x7e\x15\x16\x28\xae\xd2\xa6\xab\xf7\x15\x88\x09\xcf\x4f\x3c\
    \x00\x00\x00\x00\x00\x00\x00\x00\x00\x00\x00\x00\x00\x00\x00\x00";

const KEY_A3: [u8; 32] = *b"\x60\x3d\xeb\x10\x15\xca\x71\xbe\x2b\x73\xae\xf0\x85\x7d\x77\x81\
    \x1f\x35\x2c\x07\x3b\x61\x08\xd7\x2d\x98\x10\xa3\x09\x14\xdf\xf4";

const KEY_C1: [u8; 32] = *b"\x00\x01\x02\x03\x04\x05\x06\x07\x08\x09\x0a\x0b\x0c\x0d\x0e\x0f\
    \x00\x00\x00\x00\x00\x00\x00\x00\x00\x00\x00\x00\x00\x00\x00\x00";

const KEY_C3: [u8; 32] = *b"\x00\x01\x02\x03\x04\x05\x06\x07\x08\x09\x0a\x0b\x0c\x0d\x0e\x0f\
    \x10\x11\x12\x13\x14\x15\x16\x17\x18\x19\x1a\x1b\x1c\x1d\x1e\x1f";

const INPUT_B: [u8; 16] = *b"\x32\x43\xf6\xa8\x88\x5a\x30\x8d\x31\x31\x98\xa2\xe0\x37\x07\x34";

const INPUT_C: [u8; 16] = *b"\x00\x11\x22\x33\x44\x55\x66\x77\x88\x99\xaa\xbb\xcc\xdd\xee\xff";

fn main(rt: HostRuntime) -> io::Result<()> {
    let table = aes_sbox::sbox();
    report(&rt, b"SBOX", sbox_difference(&table))?;
    let inverse = aes_sbox::inv_sbox();
    report(&rt, b"INV_SBOX", inv_sbox_difference(&inverse))?;
    appendix_a1(&rt)?;
    appendix_a3(&rt)?;
    appendix_b(&rt)?;
    appendix_c1(&rt)?;
    appendix_c3(&rt)
}

// The first byte at which the table and the rule part.
fn sbox_difference(table: &[u8; 256]) -> Option<u8> {
    for x in 0..=255 {
        if table[usize::from(x)] != aes_sbox::sbox_rule(x) {
            return Some(x);
        }
    }
    None
}

// The first byte that the table does not give back from what the S-box's rule makes of it.
fn inv_sbox_difference(table: &[u8; 256]) -> Option<u8> {
    for x in 0..=255 {
        if table[usize::from(aes_sbox::sbox_rule(x))] != x {
            return Some(x);
        }
    }
    None
}

fn report(rt: &impl Print, table: &[u8], difference: Option<u8>) -> io::Result<()> {
    test_print::text(rt, table)?;
    let Some(byte) = difference else {
        return test_print::text(rt, b" 256 entries agree with the rule\n");
    };
    test_print::text(rt, b" differs from the rule at byte ")?;
    test_print::number(rt, usize::from(byte))?;
    test_print::newline(rt)
}

fn appendix_a1(rt: &impl Print) -> io::Result<()> {
    let key = ExpandedKey::new(KeySize::Aes128, KEY_A1);
    key_schedule(rt, b"FIPS 197 A.1 AES-128", &key.words[..44])
}

fn appendix_a3(rt: &impl Print) -> io::Result<()> {
    let key = ExpandedKey::new(KeySize::Aes256, KEY_A3);
    key_schedule(rt, b"FIPS 197 A.3 AES-256", &key.words)
}

fn appendix_b(rt: &impl Print) -> io::Result<()> {
    let source = b"FIPS 197 B AES-128";
    let key = ExpandedKey::new(KeySize::Aes128, KEY_A1);
    cipher(rt, source, &key, aes_state::state_of(INPUT_B))?;
    let output = aes::encrypt_block(&key, INPUT_B);
    test_print::value(rt, source, b" encrypt ", output)
}

fn appendix_c1(rt: &impl Print) -> io::Result<()> {
    let key = ExpandedKey::new(KeySize::Aes128, KEY_C1);
    example_vectors(rt, b"FIPS 197 C.1 AES-128", &key)
}

fn appendix_c3(rt: &impl Print) -> io::Result<()> {
    let key = ExpandedKey::new(KeySize::Aes256, KEY_C3);
    example_vectors(rt, b"FIPS 197 C.3 AES-256", &key)
}

fn example_vectors(rt: &impl Print, source: &[u8], key: &ExpandedKey) -> io::Result<()> {
    let output = aes::encrypt_block(key, INPUT_C);
    let back = aes::decrypt_block(key, output);
    cipher(rt, source, key, aes_state::state_of(INPUT_C))?;
    inv_cipher(rt, source, key, aes_state::state_of(output))?;
    test_print::value(rt, source, b" encrypt ", output)?;
    test_print::value(rt, source, b" decrypt ", back)
}

fn key_schedule(rt: &impl Print, source: &[u8], words: &[[u8; 4]]) -> io::Result<()> {
    for (i, word) in words.iter().enumerate() {
        schedule_word(rt, source, i, *word)?;
    }
    Ok(())
}

fn schedule_word(rt: &impl Print, source: &[u8], i: usize, word: [u8; 4]) -> io::Result<()> {
    test_print::text(rt, source)?;
    test_print::text(rt, b" w[")?;
    test_print::number(rt, i)?;
    test_print::text(rt, b"] ")?;
    test_print::bytes(rt, &word)?;
    test_print::newline(rt)
}

// The cipher of 5.1, written out step by step.
fn cipher(rt: &impl Print, source: &[u8], key: &ExpandedKey, input: State) -> io::Result<()> {
    let rounds = key.size.rounds();
    step(rt, source, 0, b".input ", input)?;
    let mut s = key_added(rt, source, 0, b".k_sch ", input, key.round_key(0))?;
    for round in 1..rounds {
        s = full_round(rt, source, round, s, key.round_key(round))?;
    }
    last_round(rt, source, rounds, s, key.round_key(rounds))
}

fn full_round(
    rt: &impl Print,
    source: &[u8],
    round: usize,
    start: State,
    key: State,
) -> io::Result<State> {
    let mixed = aes_mix_columns::mix_columns(substituted_and_shifted(rt, source, round, start)?);
    step(rt, source, round, b".m_col ", mixed)?;
    key_added(rt, source, round, b".k_sch ", mixed, key)
}

// The last round has no MixColumns.
fn last_round(
    rt: &impl Print,
    source: &[u8],
    round: usize,
    start: State,
    key: State,
) -> io::Result<()> {
    let shifted = substituted_and_shifted(rt, source, round, start)?;
    let output = key_added(rt, source, round, b".k_sch ", shifted, key)?;
    step(rt, source, round, b".output ", output)
}

fn substituted_and_shifted(
    rt: &impl Print,
    source: &[u8],
    round: usize,
    start: State,
) -> io::Result<State> {
    step(rt, source, round, b".start ", start)?;
    let table = aes_sbox::sbox();
    let substituted = aes_sub_bytes::sub_bytes(&table, start);
    step(rt, source, round, b".s_box ", substituted)?;
    let shifted = aes_shift_rows::shift_rows(substituted);
    step(rt, source, round, b".s_row ", shifted)?;
    Ok(shifted)
}

// The inverse cipher of 5.3, written out step by step.
fn inv_cipher(rt: &impl Print, source: &[u8], key: &ExpandedKey, input: State) -> io::Result<()> {
    let rounds = key.size.rounds();
    step(rt, source, 0, b".iinput ", input)?;
    let mut s = key_added(rt, source, 0, b".ik_sch ", input, key.round_key(rounds))?;
    for round in 1..rounds {
        s = inv_full_round(rt, source, round, s, key.round_key(rounds - round))?;
    }
    inv_last_round(rt, source, rounds, s, key.round_key(0))
}

fn inv_full_round(
    rt: &impl Print,
    source: &[u8],
    round: usize,
    start: State,
    key: State,
) -> io::Result<State> {
    let added = inv_key_added(rt, source, round, start, key)?;
    step(rt, source, round, b".ik_add ", added)?;
    Ok(aes_mix_columns::inv_mix_columns(added))
}

// The last round has no InvMixColumns.
fn inv_last_round(
    rt: &impl Print,
    source: &[u8],
    round: usize,
    start: State,
    key: State,
) -> io::Result<()> {
    let output = inv_key_added(rt, source, round, start, key)?;
    step(rt, source, round, b".ioutput ", output)
}

fn inv_key_added(
    rt: &impl Print,
    source: &[u8],
    round: usize,
    start: State,
    key: State,
) -> io::Result<State> {
    step(rt, source, round, b".istart ", start)?;
    let shifted = aes_shift_rows::inv_shift_rows(start);
    step(rt, source, round, b".is_row ", shifted)?;
    let table = aes_sbox::inv_sbox();
    let substituted = aes_sub_bytes::sub_bytes(&table, shifted);
    step(rt, source, round, b".is_box ", substituted)?;
    key_added(rt, source, round, b".ik_sch ", substituted, key)
}

fn key_added(
    rt: &impl Print,
    source: &[u8],
    round: usize,
    name: &[u8],
    s: State,
    key: State,
) -> io::Result<State> {
    step(rt, source, round, name, key)?;
    Ok(aes_add_round_key::add_round_key(s, key))
}

fn step(rt: &impl Print, source: &[u8], round: usize, name: &[u8], s: State) -> io::Result<()> {
    test_print::text(rt, source)?;
    test_print::text(rt, b" round[")?;
    test_print::number(rt, round)?;
    test_print::text(rt, b"]")?;
    test_print::text(rt, name)?;
    test_print::state(rt, s)?;
    test_print::newline(rt)
}
