// Words to vertices, from C: three numbers a vertex are laid in the lent list.
ghost use Rattle.std.specs.Prelude.{◌≡◌};
ghost use Rattle.promise.specs.Answers.{Gives};
ghost use Rattle.decoder.specs.ReadingWords.{reading, said_reading};
ghost use Rattle.telling.specs.Telling.{told};
ghost use Rattle.brinepost.specs.Readings.{flat_reading};

use refusal::Fault;

#[repr(C)]
#[derive(Clone, Copy)]
pub struct BpReading {
    pub refusal: u32,
    pub vertices: usize,
    pub place: usize,
}

fn answered(r: Result<usize, Fault>) -> BpReading
    ensures { result ≡ flat_reading (said_reading r) }
{
    match r {
        Ok(n) => BpReading {
            refusal: 0,
            vertices: n,
            place: 0,
        },
        Err(f) => BpReading {
            refusal: refusal::number(f.refusal),
            vertices: 0,
            place: f.place,
        },
    }
}

// COMMAND, COUNT, NOPARAMS, CUTPARAMS and STEP from left to right, then ROOM; else id, x and y of each vertex.
#[unsafe(no_mangle)]
pub extern "C" fn bp_decode(words: &[u32], out: &mut [i32]) -> BpReading
    ensures { Gives (told flat_reading (reading words.now out.old)) result out.new }
{
    let r = decoder::decode(words, out);
    answered(r)
}
