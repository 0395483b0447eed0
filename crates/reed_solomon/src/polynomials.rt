// Words of polynomials over any field, for coefficients that are known to be symbols.
ghost use Rattle.std.specs.Prelude.{◌≡◌, ◌≤◌, T, length};
ghost use Rattle.field.specs.Words.{symbols};
ghost use Rattle.reed_solomon.specs.Code.{rs_word};

use field::{Field, value};

// Writes the values at the points 0, 1, ..
pub(crate) fn write_word<F: Field>(f: &F, message: &[u8], out: &mut [u8])
    requires points { length out.old ≤ (F.Field.meaning f.now).q }
    requires symbols { T (symbols (F.Field.meaning f.now).q message.now) }
    ensures { out.new ≡ rs_word (F.Field.meaning f.now) (length out.old) message.now }
{
    for (i, y) in out.iter_mut().enumerate() {
        // There are no more points than symbols, so `i` fits.
        *y = value(f, i as u8, message);
    }
}
