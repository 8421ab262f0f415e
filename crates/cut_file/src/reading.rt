ghost use Rattle.std.specs.Prelude.{◌≡◌, ◌≢◌, ◌<◌, ◌≤◌, ◌^◌, ◌++◌, ◌∷◌, [], length, nat_lt, true, false};
ghost use Rattle.std.specs.Prelude.{Err, IfErr, IfOk, IsTrue, None, OnOk, Some};
ghost use Rattle.cut_file.specs.declared.lines.Line.TheVariants as forms;
ghost use Rattle.cut_file.specs.Cuts.{CutPicture, are_points, is_cut_point};
ghost use Rattle.cut_file.specs.Cuts.{is_point_of, is_version, stands_before};
ghost use Rattle.cut_file.specs.Faults.{FirstCutFault};
ghost use Rattle.cut_file.specs.Fronts.{bare_cut as bare, is_front, version_of};
ghost use Rattle.cut_file.specs.Fronts.Front.{Listed, Nothing, Sized, Versioned};
ghost use Rattle.cut_file.specs.Pictures.{front_of, cut_picture};
ghost use Rattle.cut_file.specs.Private.Reading.{cut_in, is_short, line_in, lines_in, may_follow, parts, unfit as unfit_line};
ghost use Rattle.cut_file.specs.Private.Reading.{with_line as lined, with_text as texted};
ghost use Rattle.cut_file.specs.Texts.{CutText, is_line};
ghost use Rattle.flow_base.specs.Points.{is_region_number};

use crate::cuts::Cut;
use crate::drafts::Draft;
use crate::faults::CutFault;
use crate::line_forms::line;
use crate::lines::Line;
use crate::points::CutPoint;
use crate::words::divide;
use flow_base::List;
use std::alloc::Global;

// The fault of the line of that number where its form may not stand there.
fn unfit(number: u32) -> CutFault
    ensures { result ≡ unfit_line number }
{
    if number == 1 {
        CutFault::Version
    } else {
        CutFault::Line { number }
    }
}

// Whether a region may stand after regions.
fn may_follow_regions(regions: &[u16], region: u16) -> bool
    ensures { result ≡ may_follow nat_lt regions.now region }
{
    match regions {
        [.., last] => *last < region,
        [] => true,
    }
}

// Whether a point may stand after points.
fn may_follow_points(points: &[CutPoint], point: &CutPoint) -> bool
    requires points { IsTrue (are_points points.now) }
    requires point { IsTrue (is_cut_point point.now) }
    ensures { result ≡ may_follow stands_before points.now point.now }
{
    match points {
        [.., last] => last.point.is_below(point.point),
        [] => true,
    }
}

// Puts a region after others, by the line of that number.
fn push_region(skip: &mut List<u16>, number: u32, region: u16) -> Result<(), CutFault>
    ensures put { OnOk result (skip.new ≡ skip.old ++ region ∷ []) }
    ensures ok { OnOk result (may_follow nat_lt skip.old region ≡ true) }
    ensures err { IfErr result (λ fault. fault ≢ CutFault.Memory → fault ≡ CutFault.Order number) }
    ensures out_of_order { IfErr result (λ fault. fault ≢ CutFault.Memory → may_follow nat_lt skip.old region ≡ false) }
{
    if !may_follow_regions(skip.as_slice(), region) {
        return Err(CutFault::Order { number });
    }
    match skip.push(region) {
        Ok(()) => Ok(()),
        Err(_) => Err(CutFault::Memory),
    }
}

// Puts a point after others, by the line of that number.
fn push_point(points: &mut List<CutPoint>, number: u32, point: CutPoint) -> Result<(), CutFault>
    requires points { IsTrue (are_points points.now) }
    requires point { IsTrue (is_cut_point point) }
    ensures put { OnOk result (points.new ≡ points.old ++ point ∷ []) }
    ensures ok { OnOk result (may_follow stands_before points.old point ≡ true) }
    ensures err { IfErr result (λ fault. fault ≢ CutFault.Memory → fault ≡ CutFault.Order number) }
    ensures out_of_order { IfErr result (λ fault. fault ≢ CutFault.Memory
        → may_follow stands_before points.old point ≡ false) }
{
    if !may_follow_points(points.as_slice(), &point) {
        return Err(CutFault::Order { number });
    }
    match points.push(point) {
        Ok(()) => Ok(()),
        Err(_) => Err(CutFault::Memory),
    }
}

// The draft of a cut with a region after its own, by the line of that number.
#[tactic(auto, unfolding(crate::specs::Private::Reading::with_line))]
fn with_region(cut: Cut, number: u32, region: u16) -> Result<Draft, CutFault>
    requires { IsTrue (is_region_number region) }
    ensures ok { IfOk result (λ longer. lined number (Listed (cut_picture cut)) (forms.Skip region)
        ≡ Ok (front_of longer)) }
    ensures err { IfErr result (λ fault. fault ≢ CutFault.Memory
        → lined number (Listed (cut_picture cut)) (forms.Skip region) ≡ Err fault) }
{
    if cut.points.len() != 0 {
        return Err(unfit(number));
    }
    let Cut {
        version,
        secret_len,
        bits,
        mut skip,
        points,
    } = cut;
    push_region(&mut skip, number, region)?;
    Ok(Draft::Listed(Cut {
        version,
        secret_len,
        bits,
        skip,
        points,
    }))
}

// The draft of a cut with a point after its own, by the line of that number.
#[tactic(auto, unfolding(crate::specs::Private::Reading::with_line))]
fn with_point(cut: Cut, number: u32, point: CutPoint) -> Result<Draft, CutFault>
    requires { IsTrue (is_point_of cut.version point) }
    ensures ok { IfOk result (λ longer. lined number (Listed (cut_picture cut)) (forms.Point point)
        ≡ Ok (front_of longer)) }
    ensures err { IfErr result (λ fault. fault ≢ CutFault.Memory
        → lined number (Listed (cut_picture cut)) (forms.Point point) ≡ Err fault) }
{
    let Cut {
        version,
        secret_len,
        bits,
        skip,
        mut points,
    } = cut;
    push_point(&mut points, number, point)?;
    Ok(Draft::Listed(Cut {
        version,
        secret_len,
        bits,
        skip,
        points,
    }))
}

// The cut of three numbers, without regions and points.
fn bare_cut(alloc: Global, version: u8, secret_len: u32, bits: u32) -> Cut
    requires version { IsTrue (is_version version) }
    requires short { IsTrue (is_short secret_len) }
    ensures { cut_picture result ≡ bare version secret_len bits }
{
    Cut {
        version,
        secret_len,
        bits,
        skip: List::new(alloc),
        points: List::new(alloc),
    }
}

// The draft of the first line.
#[tactic(auto, unfolding(crate::specs::Private::Reading::with_line))]
fn with_version(number: u32, line: &Line) -> Result<Draft, CutFault>
    ensures ok { IfOk result (λ longer. lined number Nothing line.now ≡ Ok (front_of longer)) }
    ensures err { IfErr result (λ fault. lined number Nothing line.now ≡ Err fault) }
{
    match line {
        Line::Version(version) => Ok(Draft::Versioned(*version)),
        _ => Err(unfit(number)),
    }
}

// The draft of the first two lines.
#[tactic(auto, unfolding(crate::specs::Private::Reading::with_line))]
fn with_secret(version: u8, number: u32, line: &Line) -> Result<Draft, CutFault>
    ensures ok { IfOk result (λ longer. lined number (Versioned version) line.now ≡ Ok (front_of longer)) }
    ensures err { IfErr result (λ fault. lined number (Versioned version) line.now ≡ Err fault) }
{
    match line {
        Line::Secret(length) => Ok(Draft::Sized(version, *length)),
        _ => Err(unfit(number)),
    }
}

// The draft of the first three lines.
#[tactic(auto, unfolding(crate::specs::Private::Reading::with_line))]
fn with_bits(
    alloc: Global,
    version: u8,
    length: u32,
    number: u32,
    line: &Line,
) -> Result<Draft, CutFault>
    requires version { IsTrue (is_version version) }
    requires short { IsTrue (is_short length) }
    ensures ok { IfOk result (λ longer. lined number (Sized version length) line.now ≡ Ok (front_of longer)) }
    ensures err { IfErr result (λ fault. lined number (Sized version length) line.now ≡ Err fault) }
{
    match line {
        Line::Bits(bits) => Ok(Draft::Listed(bare_cut(alloc, version, length, *bits))),
        _ => Err(unfit(number)),
    }
}

// The draft of a cut with one more line, of that number.
#[tactic(auto, unfolding(crate::specs::Private::Reading::with_line))]
fn with_later(cut: Cut, number: u32, line: Line) -> Result<Draft, CutFault>
    requires { IsTrue (is_line cut.version line) }
    ensures ok { IfOk result (λ longer. lined number (Listed (cut_picture cut)) line ≡ Ok (front_of longer)) }
    ensures err { IfErr result (λ fault. fault ≢ CutFault.Memory
        → lined number (Listed (cut_picture cut)) line ≡ Err fault) }
{
    match line {
        Line::Skip(region) => with_region(cut, number, region),
        Line::Point(point) => with_point(cut, number, point),
        Line::End => Ok(Draft::Whole(cut)),
        _ => Err(unfit(number)),
    }
}

// The draft with one more line, of that number.
#[tactic(auto, unfolding(crate::specs::Private::Reading::with_line))]
fn with_line(alloc: Global, draft: Draft, number: u32, line: Line) -> Result<Draft, CutFault>
    requires draft { IsTrue (is_front (front_of draft)) }
    requires line { IsTrue (is_line (version_of (front_of draft)) line) }
    ensures ok { IfOk result (λ longer. lined number (front_of draft) line ≡ Ok (front_of longer)) }
    ensures err { IfErr result (λ fault. fault ≢ CutFault.Memory → lined number (front_of draft) line ≡ Err fault) }
{
    match draft {
        Draft::Nothing => with_version(number, &line),
        Draft::Versioned(version) => with_secret(version, number, &line),
        Draft::Sized(version, length) => with_bits(alloc, version, length, number, &line),
        Draft::Listed(cut) => with_later(cut, number, line),
        Draft::Whole(_) => Err(unfit(number)),
    }
}

// The version of a draft; before its line, any.
fn version(draft: &Draft) -> u8
    ensures { result ≡ version_of (front_of draft.now) }
{
    match draft {
        Draft::Nothing => 1,
        Draft::Versioned(version) | Draft::Sized(version, _) => *version,
        Draft::Listed(cut) | Draft::Whole(cut) => cut.version,
    }
}

// The line of that number and text, in a cut of that version.
fn line_at(alloc: Global, version: u8, number: u32, text: &[u8]) -> Result<Line, CutFault>
    ensures ok { IfOk result (λ line. line_in version text.now ≡ Some line) }
    ensures err { IfErr result (λ fault. fault ≢ CutFault.Memory → fault ≡ unfit_line number) }
    ensures none { IfErr result (λ fault. fault ≢ CutFault.Memory → line_in version text.now ≡ None) }
{
    match line(alloc, version, text)? {
        Some(line) => Ok(line),
        None => Err(unfit(number)),
    }
}

// The draft with the line of that number and text.
#[tactic(auto, unfolding(crate::specs::Private::Reading::with_text))]
fn with_text(alloc: Global, draft: Draft, number: u32, text: &[u8]) -> Result<Draft, CutFault>
    requires { IsTrue (is_front (front_of draft)) }
    ensures ok { IfOk result (λ longer. texted number (front_of draft) text.now ≡ Ok (front_of longer)) }
    ensures err { IfErr result (λ fault. fault ≢ CutFault.Memory
        → texted number (front_of draft) text.now ≡ Err fault) }
    ensures long { IfOk result (λ _. 1 ≤ length text.now) }
    ensures front { IfOk result (λ longer. IsTrue (is_front (front_of longer))) }
{
    let line = line_at(alloc, version(&draft), number, text)?;
    with_line(alloc, draft, number, line)
}

// The cut of the lines up to `end`, and the rest of the file after that line.
fn lines(alloc: Global, file: &[u8]) -> Result<(Cut, &[u8]), CutFault>
    requires { length file.now < 2 ^ 32 }
    ensures ok { IfOk result (λ p. lines_in 1 Nothing (parts 10 file.now) ≡ Ok (cut_picture p.0, parts 10 p.1.now)) }
    ensures err { IfErr result (λ fault. fault ≢ CutFault.Memory → lines_in 1 Nothing (parts 10 file.now) ≡ Err fault) }
    ensures shorter { IfOk result (λ p. length p.1.now ≤ length file.now) }
{
    let mut draft = Draft::Nothing;
    let mut number: u32 = 1;
    let mut rest = file;
    while let Some((text, more)) = divide(b'\n', rest) {
        match with_text(alloc, draft, number, text)? {
            Draft::Whole(cut) => return Ok((cut, more)),
            longer => draft = longer,
        }
        number += 1;
        rest = more;
    }
    Err(CutFault::Truncated)
}

// The cut of a file, or its first fault.
#[tactic(auto, unfolding(crate::specs::Private::Reading::cut_in))]
fn cut_of(alloc: Global, file: &[u8]) -> Result<Cut, CutFault>
    requires { length file.now < 2 ^ 32 }
    ensures ok { IfOk result (λ cut. cut_in file.now ≡ Ok (cut_picture cut)) }
    ensures err { IfErr result (λ fault. fault ≢ CutFault.Memory → cut_in file.now ≡ Err fault) }
{
    let (cut, rest) = lines(alloc, file)?;
    if rest.is_empty() {
        Ok(cut)
    } else {
        Err(CutFault::Trailing {
            offset: (file.len() - rest.len()) as u32,
        })
    }
}

/// The cut whose text the file is. The text has the lines `flowcheck-cut VERSION`, `secret LENGTH` and `bits NUMBER`,
/// then a line `skip REGION` for each skipped region and a line `point REGION 0xADDRESS SLOT RUNS rest REST` for each
/// point, both strictly ascending, and `end`. RUNS are none or more words `COUNT*0xMASK`, each with another mask than
/// the one before. REST is one word `0xMASK` in version 1, and one or more such runs in version 2. Numbers are decimal
/// without leading zeros; addresses and masks have eight hexadecimal digits in lower case; one space stands between
/// words, and each line ends with a line feed.
///
/// Every other file answers its first fault, as [`CutFault`] tells them; lack of memory answers [`CutFault::Memory`].
/// It takes time in the length of the file.
pub fn read_cut(alloc: Global, file: &[u8]) -> Result<Cut, CutFault>
    requires { length file.now < 2 ^ 32 }
    ensures text { IfOk result (λ cut. CutText file.now (cut_picture cut)) }
    ensures fault { IfErr result (λ fault. FirstCutFault file.now fault) }
    ensures refused { IfErr result (λ fault. fault ≢ CutFault.Memory → (cut : CutPicture) → ¬ CutText file.now cut) }
    ensures only { (fault : CutFault) → FirstCutFault file.now fault → fault ≢ CutFault.Memory
        → result ≢ Err CutFault.Memory → result ≡ Err fault }
{
    cut_of(alloc, file)
}
