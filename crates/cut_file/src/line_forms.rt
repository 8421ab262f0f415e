ghost use Rattle.std.specs.Prelude.{◌≡◌, [], codes, option_map, IfOk, OnSome};
ghost use Rattle.cut_file.specs.Cuts.{have_other_masks, is_version, is_word};
ghost use Rattle.cut_file.specs.Private.Reading.{is_short, line_in, may_follow, number_behind as number_behind_text};
ghost use Rattle.cut_file.specs.Private.Reading.{number_line_in, only_mask_in, others_of, pattern_in, place_in, point_in};
ghost use Rattle.cut_file.specs.Private.Reading.{point_in_words, rest_in, runs_in, single_in, tested_number};
ghost use Rattle.flow_base.specs.Points.{is_region_number};

use crate::line_words::LineWords;
use crate::lines::Line;
use crate::points::{CutPoint, Run};
use crate::words::{number, run, slot, word};
use flow_base::{List, NoMemory, Point, after};
use std::alloc::Global;

/// The length in bytes that a secret may have at most.
const LONGEST_SECRET: u32 = 65_536;

/// The highest number of a region.
const HIGHEST_REGION: u32 = 65_535;

// The number of a word after a wanted text.
fn number_behind(wanted: &[u8], text: &[u8]) -> Option<u32>
    ensures { result ≡ number_behind_text wanted.now text.now }
{
    number(after(wanted, text)?)
}

// The version in a line of that form.
fn version(text: &[u8]) -> Option<u8>
    ensures { result ≡ tested_number (codes "flowcheck-cut ") is_version text.now }
{
    let version = number_behind(b"flowcheck-cut ", text)?;
    if version == 1 || version == 2 {
        Some(version as u8)
    } else {
        None
    }
}

// The secret's length in a line of that form.
fn secret_len(text: &[u8]) -> Option<u32>
    ensures { result ≡ tested_number (codes "secret ") is_short text.now }
{
    let length = number_behind(b"secret ", text)?;
    if length <= LONGEST_SECRET {
        Some(length)
    } else {
        None
    }
}

// The number of bits in a line of that form.
fn bits(text: &[u8]) -> Option<u32>
    ensures { result ≡ tested_number (codes "bits ") is_word text.now }
{
    let bits = number_behind(b"bits ", text)?;
    Some(bits)
}

// The skipped region in a line of that form.
fn skipped_region(text: &[u8]) -> Option<u16>
    ensures { result ≡ tested_number (codes "skip ") is_region_number text.now }
{
    let region = number_behind(b"skip ", text)?;
    if 1 <= region && region <= HIGHEST_REGION {
        Some(region as u16)
    } else {
        None
    }
}

// The point of the first three words.
#[tactic(auto, unfolding(crate::specs::Private::Reading::place_in))]
fn place(words: &mut LineWords) -> Option<Point>
    ensures point { result ≡ place_in words.old }
    ensures left { OnSome result (words.new ≡ others_of (others_of (others_of words.old))) }
{
    let region = number(words.next()?)?;
    let address = word(words.next()?)?;
    let slot = slot(words.next()?)?;
    if region <= HIGHEST_REGION {
        Some(Point {
            region: region as u16,
            address,
            slot,
        })
    } else {
        None
    }
}

// Whether a run may stand after runs.
fn may_follow_runs(runs: &[Run], run: &Run) -> bool
    ensures { result ≡ may_follow have_other_masks runs.now run.now }
{
    match runs {
        [.., last] => last.mask != run.mask,
        [] => true,
    }
}

// The runs of the words before `rest`.
#[tactic(auto, unfolding(crate::specs::Private::Reading::runs_in))]
fn runs(alloc: Global, words: &mut LineWords) -> Result<Option<List<Run>>, NoMemory>
    ensures { IfOk result (λ found. option_map (λ runs. (runs, words.new)) found ≡ runs_in [] words.old) }
{
    let mut runs: List<Run> = List::new(alloc);
    while let Some(word) = words.next() {
        if word == b"rest".as_slice() {
            return Ok(Some(runs));
        }
        let Some(run) = run(word) else {
            return Ok(None);
        };
        if !may_follow_runs(runs.as_slice(), &run) {
            return Ok(None);
        }
        runs.push(run)?;
    }
    Ok(None)
}

// The mask of the one word that is left.
#[tactic(auto, unfolding(crate::specs::Private::Reading::only_mask_in))]
fn only_mask(words: &mut LineWords) -> Option<u32>
    ensures { result ≡ only_mask_in words.old }
{
    let mask = words.next()?;
    if words.next().is_some() {
        return None;
    }
    word(mask)
}

// The mask of the one word that is left, for one visit.
#[tactic(auto, unfolding(crate::specs::Private::Reading::single_in))]
fn single(alloc: Global, words: &mut LineWords) -> Result<Option<List<Run>>, NoMemory>
    ensures { IfOk result (λ found. found ≡ single_in words.old) }
{
    let Some(mask) = only_mask(words) else {
        return Ok(None);
    };
    let mut rest = List::new(alloc);
    rest.push(Run { count: 1, mask })?;
    Ok(Some(rest))
}

// The runs of the words that are left.
#[tactic(auto, unfolding(crate::specs::Private::Reading::pattern_in))]
fn pattern(alloc: Global, words: &mut LineWords) -> Result<Option<List<Run>>, NoMemory>
    ensures { IfOk result (λ found. found ≡ pattern_in [] words.old) }
{
    let mut rest: List<Run> = List::new(alloc);
    while let Some(word) = words.next() {
        let Some(run) = run(word) else {
            return Ok(None);
        };
        if !may_follow_runs(rest.as_slice(), &run) {
            return Ok(None);
        }
        rest.push(run)?;
    }
    if rest.len() == 0 {
        Ok(None)
    } else {
        Ok(Some(rest))
    }
}

// The pattern of the words after `rest`.
#[tactic(auto, unfolding(crate::specs::Private::Reading::rest_in))]
fn rest(alloc: Global, version: u8, words: &mut LineWords) -> Result<Option<List<Run>>, NoMemory>
    ensures { IfOk result (λ found. found ≡ rest_in version words.old) }
{
    if version == 2 {
        pattern(alloc, words)
    } else {
        single(alloc, words)
    }
}

// The point of a line of that form.
#[tactic(auto, unfolding(crate::specs::Private::Reading::point_in_words))]
fn point_of_words(
    alloc: Global,
    version: u8,
    words: &mut LineWords,
) -> Result<Option<CutPoint>, NoMemory>
    ensures { IfOk result (λ found. found ≡ point_in_words version words.old) }
{
    let Some(point) = place(words) else {
        return Ok(None);
    };
    let Some(runs) = runs(alloc, words)? else {
        return Ok(None);
    };
    let Some(rest) = rest(alloc, version, words)? else {
        return Ok(None);
    };
    Ok(Some(CutPoint { point, runs, rest }))
}

// The point in a line of that form, in a text of that version.
#[tactic(auto, unfolding(crate::specs::Private::Reading::point_in))]
fn cut_point(alloc: Global, version: u8, line: &[u8]) -> Result<Option<CutPoint>, NoMemory>
    ensures { IfOk result (λ found. found ≡ point_in version line.now) }
{
    let Some(words) = after(b"point ", line) else {
        return Ok(None);
    };
    let mut words = LineWords::of(words);
    point_of_words(alloc, version, &mut words)
}

// The line of a number that has this text.
#[tactic(auto, unfolding(crate::specs::Private::Reading::number_line_in))]
fn number_line(text: &[u8]) -> Option<Line>
    ensures { result ≡ number_line_in text.now }
{
    if let Some(version) = version(text) {
        return Some(Line::Version(version));
    }
    if let Some(length) = secret_len(text) {
        return Some(Line::Secret(length));
    }
    if let Some(bits) = bits(text) {
        return Some(Line::Bits(bits));
    }
    let region = skipped_region(text)?;
    Some(Line::Skip(region))
}

/// The line that has this text, in a cut of that version.
#[tactic(auto, unfolding(crate::specs::Private::Reading::line_in))]
pub(crate) fn line(alloc: Global, version: u8, text: &[u8]) -> Result<Option<Line>, NoMemory>
    ensures { IfOk result (λ found. found ≡ line_in version text.now) }
{
    if let Some(line) = number_line(text) {
        return Ok(Some(line));
    }
    if let Some(point) = cut_point(alloc, version, text)? {
        return Ok(Some(Line::Point(point)));
    }
    if text == b"end".as_slice() {
        Ok(Some(Line::End))
    } else {
        Ok(None)
    }
}
