// Parts of one length that stand in a row: how one of them is read and written, and so many of them.

ghost use Rattle.std.specs.Prelude.{◌≡◌, ℕ, ◌+◌, ◌*◌, ◌≤◌, List, length};
ghost use Rattle.std.proofs.lemmas.List.Edits.{sets};
ghost use Rattle.form.specs.Form.{each, joined};
ghost use Rattle.form.specs.Typed.{Many};

use std::array;

// A part of the form: its bytes, what stands at a place, and what its type says of it.
pub trait Part: Copy {
    ghost LENGTH: { ℕ };

    const LENGTH: usize;

    ghost form: { Self → List ℕ };

    ghost at: { ℕ → List ℕ → Self };

    ghost Typed: { Self → Type 0 };

    // The part at a place.
    fn read(bytes: &[u8], place: usize) -> Self
        requires { place + LENGTH ≤ length bytes.now }
        ensures { result ≡ at place bytes.now };

    // The part into the bytes at a place.
    fn write(self, bytes: &mut [u8], place: usize)
        requires { place + LENGTH ≤ length bytes.old }
        ensures { (bytes.new ≡ sets bytes.old place (form self)) × Typed self };

    // Its form is of that length.
    ghost sized: { (x : Self) → Typed x → length (form x) ≡ LENGTH };
}

// So many parts from a place on. Inlined, as the next: four empty frames took 59 instructions by a call of it, and 10 so.
#[inline(always)]
pub fn read_row<T: Part, const N: usize>(bytes: &[u8], place: usize) -> [T; N]
    requires { place + N * T.LENGTH ≤ length bytes.now }
    ensures { result ≡ each N place T.LENGTH (λ i. T.at i bytes.now) }
{
    array::from_fn(
        |k|
            requires { place + T.LENGTH * k + T.LENGTH ≤ length bytes.now }
        { T::read(bytes, place + T::LENGTH * k) },
    )
}

// So many parts into the bytes from a place on. A part is copied before it is written: so the eight plans take 70 instructions on x86-64, where
// reading them field by field took 537.
#[inline(always)]
pub fn write_row<T: Part, const N: usize>(bytes: &mut [u8], place: usize, parts: [T; N])
    requires { place + N * T.LENGTH ≤ length bytes.old }
    ensures { (bytes.new ≡ sets bytes.old place (joined T.form parts)) × Many T.Typed N parts }
{
    for k in 0..N {
        let part = parts[k];
        part.write(bytes, place + T::LENGTH * k);
    }
}
