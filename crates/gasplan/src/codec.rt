// Groups of seven.
ghost use Rattle.std.specs.Prelude.{◌≡◌, length};
ghost use Rattle.numbers.specs.law.Groups.{write_told, written};
ghost use Rattle.numbers.specs.law.Reading.{read_of, read_told};
ghost use Rattle.numbers.specs.law.Told.{overlay};
ghost use Rattle.gasplan.specs.law.Out.{code_of, out_of, if_room};
ghost use Rattle.gasplan.specs.inside.Fits.{count_told, count_fits};

use super::tell::{Values, front, tell};

// The numbers of the bytes, into the list. out[0] is their count.
// Not one function with `gasplan_write`: both are exported to C, over lent arrays of other types.
// Two wrong answers that the promise rules out: the place of a refusal where the step belongs, and a list that is written though `out` is short.
#[tactic(auto, using(crate::proofs::Fitting::read_told_fits))]
#[unsafe(no_mangle)]
pub extern "C" fn gasplan_read(bytes: &[u8], list: &mut [i64], out: &mut [i64]) -> i64
    ensures value { result ≡ code_of out.old (read_told (read_of bytes.now (length list.old))) }
    ensures out_after { out.new ≡ out_of out.old (read_told (read_of bytes.now (length list.old))) }
    ensures list_after { list.new ≡ if_room out.old
        (overlay (read_of bytes.now (length list.old)).stored list.old) list.old }
{
    if out.len() < 6 {
        return -1;
    }
    let count = numbers::reader::read(bytes, list);
    tell(out, count)
}

// The bytes of the list. out[0] is their count.
#[tactic(auto, using(crate::proofs::Fitting::write_told_fits))]
#[unsafe(no_mangle)]
pub extern "C" fn gasplan_write(list: &[i64], bytes: &mut [u8], out: &mut [i64]) -> i64
    ensures value { result ≡ code_of out.old (write_told list.now (length bytes.old)) }
    ensures out_after { out.new ≡ out_of out.old (write_told list.now (length bytes.old)) }
    ensures bytes_after { bytes.new ≡ if_room out.old (written list.now bytes.old) bytes.old }
{
    if out.len() < 6 {
        return -1;
    }
    let count = numbers::writer::write(list, bytes);
    tell(out, count)
}

// A count.
impl Values for usize {
    ghost told = { count_told };

    ghost fits = { count_fits };

    fn put(self, out: &mut [i64]) {
        front(out, &[self as i64]);
    }
}
