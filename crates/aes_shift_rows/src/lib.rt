// ShiftRows (FIPS 197, 5.1.2), and InvShiftRows (5.3.1), which undoes it.
#![tactic(auto)]

ghost use Rattle.std.specs.Prelude.{◌≡◌};
ghost use Rattle.aes_shift_rows.specs.ShiftRows.{shift_rows, inv_shift_rows};

// FIPS 197, 5.1.2: ShiftRows.
pub fn shift_rows(s: [[u8; 4]; 4]) -> [[u8; 4]; 4]
    ensures { result ≡ shift_rows s }
{
    let [a, b, c, d] = s;
    [
        [a[0], b[1], c[2], d[3]],
        [b[0], c[1], d[2], a[3]],
        [c[0], d[1], a[2], b[3]],
        [d[0], a[1], b[2], c[3]],
    ]
}

// FIPS 197, 5.3.1: InvShiftRows.
pub fn inv_shift_rows(s: [[u8; 4]; 4]) -> [[u8; 4]; 4]
    ensures { result ≡ inv_shift_rows s }
{
    let [a, b, c, d] = s;
    [
        [a[0], d[1], c[2], b[3]],
        [b[0], a[1], d[2], c[3]],
        [c[0], b[1], a[2], d[3]],
        [d[0], c[1], b[2], a[3]],
    ]
}
