ghost use Rattle.std.specs.Prelude.{◌≡◌, ◌==◌, ◌&&◌, ◌^◌, ◌<◌, IfErr, IfOk, OnOk, length};
ghost use Rattle.flow_certificate.specs.Certificates.{CertText, IsFormFault};
ghost use Rattle.flow_certificate.specs.Pictures.{certificate_picture};
ghost use Rattle.flow_certificate.specs.Private.Drafts.{IsDraft, blank, sketch_of};
ghost use Rattle.flow_certificate.specs.Private.Reading.{IsWholeDraft, is_whole as is_whole_stage};

use crate::adding::{add, begin};
use crate::certificates::Certificate;
use crate::drafts::{Draft, Stage};
use crate::faults::FormFault;
use crate::finishing::certificate_of;
use crate::line_reading::line_at;
use flow_base::NoMemory;
use std::alloc::Global;

/// Whether all lines have been read.
fn is_whole(stage: Stage) -> bool
    ensures { result ≡ is_whole_stage stage }
{
    matches!(stage, Stage::Whole)
}

/// Whether all lines have been read, and nothing stands after them.
fn is_done(stage: Stage, rest: &[u8]) -> bool
    ensures { result ≡ (is_whole_stage stage && (length rest.now == 0)) }
{
    is_whole(stage) && rest.len() == 0
}

/// Takes the lines of a file into the draft of no lines. Its error is the first line that fails, or lack of memory.
fn read_lines(alloc: Global, draft: &mut Draft, file: &[u8]) -> Result<(), FormFault>
    requires short { length file.now < 2 ^ 32 }
    requires blank { sketch_of draft.old ≡ blank }
    requires draft { IsDraft draft.old }
    ensures ok { OnOk result (IsWholeDraft file.now draft.new) }
    ensures few { OnOk result (length draft.new.points < 2 ^ 32) }
    ensures err { IfErr result (IsFormFault file.now) }
{
    let mut number: u32 = 1;
    let mut rest = file;
    while let Some((line, more)) = line_at(alloc, rest)? {
        if !add(draft, line)? {
            return Err(FormFault::Line { line: number });
        }
        number += 1;
        rest = more;
    }
    if is_done(draft.stage, rest) {
        Ok(())
    } else {
        Err(FormFault::Line { line: number })
    }
}

/// The draft of a file, or its first line that fails.
fn draft_of(alloc: Global, file: &[u8]) -> Result<Draft, FormFault>
    requires { length file.now < 2 ^ 32 }
    ensures ok { IfOk result (IsWholeDraft file.now) }
    ensures few { IfOk result (λ draft. length draft.points < 2 ^ 32) }
    ensures err { IfErr result (IsFormFault file.now) }
{
    let mut draft = begin(alloc);
    read_lines(alloc, &mut draft, file)?;
    Ok(draft)
}

/// The certificate whose text the file is. The text has the lines `flowcheck-graph 1` and `value N`, then a line
/// `point REGION 0xADDRESS SLOT capacity N flow N side S` for each point, a line `relay REGION side S` for each relay and
/// a line `link FROM TO flow N` for each link, each of the three strictly ascending, and `end`. Numbers are decimal
/// without leading zeros and below 2^48, and those of regions below 65,536; addresses have eight hexadecimal digits in
/// lower case; capacities are positive. The points are named p0, p1 and so on by their lines, relays r and the region. A
/// side is `s` inside, `t` outside, and `m` or `o` for the first or the second half alone. One space stands between
/// words, and each line ends with a line feed.
///
/// Every other file answers the first line that fails. Lack of memory answers [`FormFault::Memory`]. It takes time in
/// the length of the file.
pub fn read_certificate(alloc: Global, file: &[u8]) -> Result<Certificate, FormFault>
    requires { length file.now < 2 ^ 32 }
    ensures text { IfOk result (λ c. CertText file.now (certificate_picture c.graph c.solved)) }
    ensures fault { IfErr result (IsFormFault file.now) }
{
    let draft = draft_of(alloc, file)?;
    let certificate = certificate_of(alloc, draft)?;
    Ok(certificate)
}
