// The fields of record i of an accepted recording; numbers as indices of the axis.
ghost use Rattle.std.specs.Prelude.{◌≡◌, ◌<◌, length};
ghost use Rattle.number.specs.Axis.{axis};
ghost use Rattle.recording.specs.Recording.{Accepted};
ghost use Rattle.recording.specs.Reading.{curve_of};
ghost use Rattle.grammar.specs.inner.Table as table;
ghost use Rattle.meaning.specs.inner.Coded.{coded_value, coded_slope};
ghost use Rattle.meaning.specs.inner.Truth.{coded_at, coded_field};
ghost use Rattle.meaning.specs.inner.Coded.{coded};

pub fn time_at(rec: &[u8], i: usize) -> u32
    requires { Accepted rec.now × (i < length (coded rec.now)) }
    ensures { (result ≡ (coded_at (coded rec.now) i).time) × (result < axis) }
{
    recording::word_in(rec, i, 0) + number::ORIGIN
}

pub fn value_at(rec: &[u8], i: usize, curve: usize) -> u32
    requires { Accepted rec.now × (i < length (coded rec.now)) × (curve < 2) }
    ensures { (result ≡ coded_value (curve_of curve) (coded_at (coded rec.now) i)) × (result < axis) }
{
    std::num::wrapping_add_u32(recording::word_in(rec, i, 4 + 4 * curve), number::ORIGIN)
}

pub fn slope_at(rec: &[u8], i: usize, curve: usize) -> u8
    requires { Accepted rec.now × (i < length (coded rec.now)) × (curve < 2) }
    ensures { result ≡ coded_slope (curve_of curve) (coded_at (coded rec.now) i) }
{
    recording::byte_in(rec, i, recording::SLOPE_A + curve)
}

// The field with a code of a row: 0 for A, 1 for B, 2 for T.
pub fn field_at(rec: &[u8], i: usize, code: u32) -> u32
    requires { Accepted rec.now × (i < length (coded rec.now)) }
    ensures { (result ≡ coded_field (table.field_of code) (coded_at (coded rec.now) i)) × (result < axis) }
{
    if code == 0 {
        return value_at(rec, i, 0);
    }
    if code == 1 {
        return value_at(rec, i, 1);
    }
    time_at(rec, i)
}
