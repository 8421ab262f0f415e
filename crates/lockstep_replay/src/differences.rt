ghost use Rattle.std.specs.Prelude.{◌≡◌, ◌+◌, ◌≤◌, ◌<◌, ◌^◌, length, take};
ghost use Rattle.lockstep_replay.specs.Differences.{byte_difference, status_difference as difference_of_ends};
ghost use Rattle.rv32im_machine.specs.declared.stepping.Stepped.TheVariants.{Exited};

use rv32im_machine::Stepped;

/// The first place where two outputs differ.
#[derive(Clone, Copy)]
pub(crate) struct Difference {
    pub index: u32,
    pub real: u8,
    pub replay: u8,
}

/// The first byte in which two lists differ, whose first bytes have this index.
#[inline(always)]
fn difference_from(real: &[u8], replay: &[u8], index: u32) -> Option<Difference>
    requires { index + length real.now < 2 ^ 32 }
    ensures { result ≡ byte_difference index real.now replay.now }
{
    let mut index = index;
    let mut rest = real;
    let mut others = replay;
    while let [byte, more @ ..] = rest {
        let [other, left @ ..] = others else {
            break;
        };
        if byte != other {
            return Some(Difference {
                index,
                real: *byte,
                replay: *other,
            });
        }
        index += 1;
        rest = more;
        others = left;
    }
    None
}

/// The first byte in which two outputs differ, where their first `from` bytes are equal.
#[inline(always)]
pub(crate) fn output_difference(real: &[u8], replay: &[u8], from: usize) -> Option<Difference>
    requires real { from ≤ length real.now }
    requires replay { from ≤ length replay.now }
    requires same { take from real.now ≡ take from replay.now }
    requires few { length real.now < 2 ^ 32 }
    ensures { result ≡ byte_difference 0 real.now replay.now }
{
    if from == real.len() {
        return None;
    }
    difference_from(&real[from..], &replay[from..], from as u32)
}

/// The statuses of two runs that have exited, where they differ, after an output of this length.
pub(crate) fn status_difference(index: u32, real: Stepped, replay: Stepped) -> Option<Difference>
    ensures { result ≡ difference_of_ends index real replay }
{
    match (real, replay) {
        (Stepped::Exited(status), Stepped::Exited(other)) => status_pair(index, status, other),
        _ => None,
    }
}

fn status_pair(index: u32, real: u8, replay: u8) -> Option<Difference>
    ensures { result ≡ difference_of_ends index (Exited real) (Exited replay) }
{
    if real == replay {
        None
    } else {
        Some(Difference {
            index,
            real,
            replay,
        })
    }
}
