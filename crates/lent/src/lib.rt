// Work on lent bytes: what every write and every comparison goes through.
#![tactic(auto)]

ghost use Rattle.std.specs.Prelude.{◌≡◌, ◌+◌, ◌<◌, ◌≤◌, length, IfSome};
ghost use Rattle.lent.specs.Lent.{over, first_difference};

// Writes src over dst, from `at` on; what stands before and after stays. No `copy_from_slice`: it calls memmove where the length is no
// constant, and the archive is to need memcpy and memset alone (include/gorsepetal.h).
#[tactic(auto, using(crate::proofs::Over::over_more))]
pub fn put<T: Copy>(dst: &mut [T], at: usize, src: &[T])
    requires { at + length src.now ≤ length dst.old }
    ensures { dst.new ≡ over dst.old at src.now }
{
    for (j, &x) in src.iter().enumerate() {
        dst[at + j] = x;
    }
}

// The first place at which two slices of one length differ. By index, and not by `position`: so a comparison that begins at the second byte
// is refused for what it leaves out (must-fail/first_byte_unread.edit).
pub fn first_difference(a: &[u8], b: &[u8]) -> Option<usize>
    requires { length a.now ≡ length b.now }
    ensures first { result ≡ first_difference a.now b.now }
    ensures inside { IfSome result (λ k. k < length a.now) }
{
    for i in 0..a.len() {
        if a[i] != b[i] {
            return Some(i);
        }
    }
    None
}
