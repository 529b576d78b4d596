// The copy of a list; and, without code, the definitions of lists, of the tests and searches over them, and of sorts (specs/), and their laws
// (proofs/).
#![tactic(auto)]

ghost use Rattle.std.specs.Prelude.{◌≡◌, length};

// Copies a list over another of its length. It is a loop, since an archive for C whose code calls `copy_from_slice` needs `memmove` from outside.
pub fn copy<T: Copy>(from: &[T], to: &mut [T])
    requires { length to.old ≡ length from.now }
    ensures { to.new ≡ from.now }
{
    for (i, x) in from.iter().enumerate() {
        to[i] = *x;
    }
}
