//! The lines at the head of a text.

ghost use Rattle.std.specs.Prelude.{◌≡◌, ℕ, suc, ◌<◌, ◌≤◌, ◌+◌, ◌∷◌, [], ◌++◌, ◌^◌, pos, neg_ℤ, ◌≤ℤ◌, ◌*ℤ◌, ◌+ℤ◌, int_le, true, false, List, All, IfSome, IfOk, IfErr, IsTrue, OnOk, MatchOption, MatchResult, Err, length, drop, is_some};
ghost use Rattle.clip_regions.specs.Regions.{IsWithin};
ghost use Rattle.mesh_model.specs.Watertight.{covered, scaled};
ghost use Rattle.mesh_lists.specs.Lines.{Follows, LeavesBehind, parts_after, whole_lines};
ghost use Rattle.mesh_lists.specs.Lists.{IsStop, are_near, body_lists, is_near, kept_lines, level_regions, line_at, lists_of_lines, near_corner, near_region, opened_lists};
ghost use Rattle.mesh_lists.specs.Says.{active_words, corner_of, corners_of, frame_of, has_sides, kept_of, level_of, level_words, two_coordinates, two_counts, viewer_of, where_true};

use crate::leading::{Grammar, append, next_said};
use crate::lists::ListsFault;
use crate::number::natural;
use crate::words::{behind, behind_first, coordinate_of, count_of, next_word, one_number};
use clip_regions::Region;
use std::alloc::Global;

// How many levels a text has at most.
const LEVELS: u8 = 12;

// The greatest corner of what a text covers; the least one is its negative.
const CORNER_LIMIT: i64 = 1 << 24;

// The number of a frame.
#[tactic(auto, unfolding(crate::specs::Says::frame_of))]
fn frame_of(line: &[u8]) -> Option<u64>
    ensures value { result ≡ frame_of line.now }
{
    let rest = behind_first(line, b"#")?;
    let rest = behind(rest, b"clipmap")?;
    let rest = behind(rest, b"frame")?;
    one_number(rest, 0, u64::MAX)
}

// Two coordinates.
#[tactic(auto, unfolding(crate::specs::Says::two_coordinates))]
fn two_coordinates(rest: &[u8]) -> Option<(i32, i32)>
    ensures value { result ≡ two_coordinates (parts_after 32 rest.now) }
{
    let a = next_word(rest)?;
    let b = next_word(a.rest)?;
    if next_word(b.rest).is_some() {
        return None;
    }
    let x = coordinate_of(a.front)?;
    let y = coordinate_of(b.front)?;
    Some((x, y))
}

// The place of a viewer.
#[tactic(auto, unfolding(crate::specs::Says::viewer_of))]
fn viewer_of(line: &[u8]) -> Option<(i32, i32)>
    ensures value { result ≡ viewer_of line.now }
{
    let rest = behind_first(line, b"#")?;
    let rest = behind(rest, b"viewer")?;
    two_coordinates(rest)
}

// A corner of an active region.
#[tactic(auto, unfolding(crate::specs::Says::corner_of))]
fn corner_of(word: &[u8]) -> Option<i32>
    ensures value { result ≡ corner_of word.now }
    ensures low { IfSome result (λ n. neg_ℤ (pos (2 ^ 24)) ≤ℤ n) }
    ensures high { IfSome result (λ n. n ≤ℤ pos (2 ^ 24)) }
{
    let corner = coordinate_of(word)?;
    if corner.unsigned_abs() % 2 == 0 {
        Some(corner)
    } else {
        None
    }
}

// Whether a corner lies 2 or more past another.
fn is_past(low: i32, high: i32) -> bool
    requires { low ≤ℤ pos (2 ^ 24) }
    ensures value { result ≡ int_le (low +ℤ pos 2) high }
{
    low + 2 <= high
}

// Whether each side of a region is 2 or more.
#[tactic(auto, unfolding(crate::specs::Says::has_sides))]
fn has_sides(r: &Region) -> bool
    requires { IsWithin (2 ^ 24) r.now }
    ensures value { result ≡ has_sides r.now }
{
    is_past(r.x0, r.x1) && is_past(r.y0, r.y1)
}

// The region of four corners.
#[tactic(auto, unfolding(crate::specs::Says::corners_of))]
fn corners_of(rest: &[u8]) -> Option<Region>
    ensures value { result ≡ corners_of (parts_after 32 rest.now) }
    ensures within { IfSome result (IsWithin (2 ^ 24)) }
{
    let a = next_word(rest)?;
    let b = next_word(a.rest)?;
    let c = next_word(b.rest)?;
    let d = next_word(c.rest)?;
    if next_word(d.rest).is_some() {
        return None;
    }
    let region = Region {
        x0: corner_of(a.front)?,
        y0: corner_of(b.front)?,
        x1: corner_of(c.front)?,
        y1: corner_of(d.front)?,
    };
    if has_sides(&region) {
        Some(region)
    } else {
        None
    }
}

// The active region that the words of a level tell.
#[tactic(auto, unfolding(crate::specs::Says::active_words))]
fn active_of(rest: &[u8]) -> Option<Region>
    ensures value { result ≡ active_words (parts_after 32 rest.now) }
    ensures within { IfSome result (IsWithin (2 ^ 24)) }
{
    let word = next_word(rest)?;
    if next_word(word.rest).is_some() {
        if word.front != b"active".as_slice() {
            return None;
        }
        return corners_of(word.rest);
    }
    if word.front == b"empty".as_slice() {
        Some(Region::empty())
    } else {
        None
    }
}

// The active region that the words behind `level` tell, for this level.
#[tactic(auto, unfolding(crate::specs::Says::level_words))]
fn level_words(rest: &[u8], level: u8) -> Option<Region>
    ensures value { result ≡ level_words level (parts_after 32 rest.now) }
    ensures within { IfSome result (IsWithin (2 ^ 24)) }
{
    let number = next_word(rest)?;
    natural(number.front, u64::from(level), u64::from(level))?;
    active_of(number.rest)
}

// The active region of this level.
#[tactic(auto, unfolding(crate::specs::Says::level_of))]
fn level_of(line: &[u8], level: u8) -> Option<Region>
    ensures value { result ≡ level_of level line.now }
    ensures within { IfSome result (IsWithin (2 ^ 24)) }
{
    let rest = behind_first(line, b"#")?;
    let rest = behind(rest, b"level")?;
    level_words(rest, level)
}

// Two numbers with `of` between them.
#[tactic(auto, unfolding(crate::specs::Says::two_counts))]
fn two_counts(rest: &[u8]) -> Option<(u64, u64)>
    ensures value { result ≡ two_counts (parts_after 32 rest.now) }
{
    let word = next_word(rest)?;
    let more = behind(word.rest, b"of")?;
    let p = count_of(word.front)?;
    let q = one_number(more, 0, u64::MAX)?;
    Some((p, q))
}

// How many parts were kept, and of how many.
#[tactic(auto, unfolding(crate::specs::Says::kept_of))]
fn kept_of(line: &[u8]) -> Option<(u64, u64)>
    ensures value { result ≡ kept_of line.now }
{
    let rest = behind_first(line, b"#")?;
    let rest = behind(rest, b"kept")?;
    two_counts(rest)
}

// The lines that tell a frame's number.
#[derive(Drop)]
struct FrameLine;

impl Grammar<u64> for FrameLine {
    ghost says = { λ _ line. frame_of line };

    ghost fits = { λ _ _. Unit {0} };

    fn read(&self, line: &[u8]) -> Option<u64> {
        frame_of(line)
    }
}

// The lines that tell the place of a viewer.
#[derive(Drop)]
struct ViewerLine;

impl Grammar<(i32, i32)> for ViewerLine {
    ghost says = { λ _ line. viewer_of line };

    ghost fits = { λ _ _. Unit {0} };

    fn read(&self, line: &[u8]) -> Option<(i32, i32)> {
        viewer_of(line)
    }
}

// The lines that tell the active region of a level.
#[derive(Drop)]
struct LevelLine {
    level: u8,
}

impl Grammar<Region> for LevelLine {
    ghost says = { λ grammar line. level_of grammar.level line };

    ghost fits = { λ _ region. IsWithin (2 ^ 24) region };

    fn read(&self, line: &[u8]) -> Option<Region> {
        level_of(line, self.level)
    }
}

// The lines that tell how many parts were kept.
#[derive(Drop)]
struct KeptLine;

impl Grammar<(u64, u64)> for KeptLine {
    ghost says = { λ _ line. kept_of line };

    ghost fits = { λ _ _. Unit {0} };

    fn read(&self, line: &[u8]) -> Option<(u64, u64)> {
        kept_of(line)
    }
}

// The text behind the line of a frame's number, where one comes first.
fn behind_frame(text: &[u8]) -> Option<&[u8]>
    ensures lines { MatchOption result (is_some (frame_of (line_at (whole_lines text.now) 0)) ≡ false)
        (λ rest. (is_some (frame_of (line_at (whole_lines text.now) 0)) ≡ true) × Follows text.now rest.now) }
{
    match next_said(&FrameLine, text) {
        None => None,
        Some(line) => Some(line.text),
    }
}

// The text behind the line of a viewer, where one comes first.
fn behind_viewer(text: &[u8]) -> Option<&[u8]>
    ensures lines { MatchOption result (is_some (viewer_of (line_at (whole_lines text.now) 0)) ≡ false)
        (λ rest. (is_some (viewer_of (line_at (whole_lines text.now) 0)) ≡ true) × Follows text.now rest.now) }
{
    match next_said(&ViewerLine, text) {
        None => None,
        Some(line) => Some(line.text),
    }
}

// The text behind a line of kept parts, where one comes first.
fn behind_kept(text: &[u8]) -> Option<&[u8]>
    ensures lines { MatchOption result (kept_lines (whole_lines text.now) ≡ 0)
        (λ rest. (kept_lines (whole_lines text.now) ≡ 1) × Follows text.now rest.now) }
{
    match next_said(&KeptLine, text) {
        None => None,
        Some(line) => Some(line.text),
    }
}

// The text behind the lines of the frame's number and of the viewer, or the first bad one of the two.
fn read_opening(text: &[u8]) -> Result<&[u8], u32>
    ensures lists { MatchResult result (λ rest. lists_of_lines (whole_lines text.now)
        ≡ opened_lists (whole_lines rest.now)) (λ line. lists_of_lines (whole_lines text.now) ≡ Err line) }
    ensures left { IfOk result (λ rest. LeavesBehind 2 text.now rest.now) }
{
    match behind_frame(text) {
        None => Err(1),
        Some(rest) => match behind_viewer(rest) {
            None => Err(2),
            Some(rest) => Ok(rest),
        },
    }
}

// The active regions of the levels, and the text behind their lines.
#[derive(Drop)]
struct Levels<'a> {
    regions: Vec<Region>,
    text: &'a [u8],
}

// The active regions of the level lines that come next.
fn read_levels(alloc: Global, text: &[u8]) -> Result<Levels<'_>, ListsFault>
    ensures regions { IfOk result (λ levels. levels.regions.items ≡ level_regions 12 0 (whole_lines text.now)) }
    ensures left { IfOk result (λ levels. LeavesBehind (length levels.regions.items) text.now levels.text.now) }
    ensures few { IfOk result (λ levels. length levels.regions.items ≤ 12) }
    ensures within { IfOk result (λ levels. All (IsWithin (2 ^ 24)) levels.regions.items) }
    ensures err { IfErr result (λ fault. fault ≡ ListsFault.NoMemory) }
{
    let mut text = text;
    let mut regions = Vec::new(alloc);
    for level in 0..LEVELS {
        match next_said(&LevelLine { level }, text) {
            None => return Ok(Levels { regions, text }),
            Some(line) => {
                append(&mut regions, line.said)?;
                text = line.text;
            }
        }
    }
    Ok(Levels { regions, text })
}

// How many samples the cells of a level lie apart.
fn spacing(level: u8) -> i32
    requires { level < 12 }
    ensures value { result ≡ pos (2 ^ level) }
    ensures low { pos 1 ≤ℤ result }
{
    1 << level
}

// Whether a number is no farther from zero than 2^24.
#[tactic(auto, unfolding(crate::specs::Lists::is_near))]
fn is_near(n: i64) -> bool
    ensures value { result ≡ is_near n }
    ensures low { IsTrue result → neg_ℤ (pos (2 ^ 24)) ≤ℤ n }
    ensures high { IsTrue result → n ≤ℤ pos (2 ^ 24) }
{
    -CORNER_LIMIT <= n && n <= CORNER_LIMIT
}

// A corner by positions.
fn product(corner: i32, spacing: i32) -> i64
    requires low { neg_ℤ (pos (2 ^ 24)) ≤ℤ corner }
    requires high { corner ≤ℤ pos (2 ^ 24) }
    requires positive { pos 1 ≤ℤ spacing }
    requires small { spacing ≤ℤ pos (2 ^ 11) }
    ensures value { result ≡ corner *ℤ spacing }
{
    i64::from(corner) * i64::from(spacing)
}

// A corner by positions, where it is near enough.
fn corner_at(corner: i32, spacing: i32) -> Option<i32>
    requires low { neg_ℤ (pos (2 ^ 24)) ≤ℤ corner }
    requires high { corner ≤ℤ pos (2 ^ 24) }
    requires positive { pos 1 ≤ℤ spacing }
    requires small { spacing ≤ℤ pos (2 ^ 11) }
    ensures value { result ≡ near_corner (corner *ℤ spacing) }
{
    let at = product(corner, spacing);
    if is_near(at) { Some(at as i32) } else { None }
}

// A region by positions, where it is near enough.
#[tactic(auto, unfolding(crate::specs::Lists::near_region, mesh_model::specs::Watertight::scaled))]
fn scaled(region: Region, spacing: i32) -> Option<Region>
    requires within { IsWithin (2 ^ 24) region }
    requires positive { pos 1 ≤ℤ spacing }
    requires small { spacing ≤ℤ pos (2 ^ 11) }
    ensures value { result ≡ near_region (scaled spacing region) }
{
    let x0 = corner_at(region.x0, spacing)?;
    let y0 = corner_at(region.y0, spacing)?;
    let x1 = corner_at(region.x1, spacing)?;
    let y1 = corner_at(region.y1, spacing)?;
    Some(Region { x0, y0, x1, y1 })
}

// The last of the regions by positions, where it is near enough.
fn covered(regions: &[Region]) -> Option<Region>
    requires some { 0 < length regions.now }
    requires few { length regions.now ≤ 12 }
    requires within { All (IsWithin (2 ^ 24)) regions.now }
    ensures near { MatchOption result (are_near (covered regions.now) ≡ false)
        (λ border. (are_near (covered regions.now) ≡ true) × (border ≡ covered regions.now)) }
{
    let coarsest = regions.len() - 1;
    scaled(regions[coarsest], spacing(coarsest as u8))
}

// What the head of a text tells, and the text behind it.
#[derive(Clone, Copy)]
pub(crate) struct Head<'a> {
    // How many lines the head has.
    pub(crate) lines: u32,
    // What the last level covers, by positions.
    pub(crate) border: Region,
    // The text behind the head.
    pub(crate) text: &'a [u8],
}

// The head of a text by the text behind its level lines.
fn head_behind(count: u32, border: Region, text: &[u8]) -> Head<'_>
    requires small { count ≤ 2 ^ 28 }
    ensures lists { let lines = whole_lines text.now in let kept = kept_lines lines in
        body_lists (2 + count + kept) border (drop kept lines)
        ≡ body_lists result.lines result.border (whole_lines result.text.now) }
    ensures left { (before : List ℕ) → LeavesBehind (2 + count) before text.now
        → LeavesBehind result.lines before result.text.now }
{
    match behind_kept(text) {
        Some(text) => Head {
            lines: 3 + count,
            border,
            text,
        },
        None => Head {
            lines: 2 + count,
            border,
            text,
        },
    }
}

// The head of a text, or its first bad line.
pub(crate) fn read_head(alloc: Global, text: &[u8]) -> Result<Head<'_>, ListsFault>
    requires small { length text.now ≤ 2 ^ 28 }
    ensures lists { MatchResult result
        (λ head. lists_of_lines (whole_lines text.now) ≡ body_lists head.lines head.border (whole_lines head.text.now))
        (IsStop (lists_of_lines (whole_lines text.now))) }
    ensures left { IfOk result (λ head. LeavesBehind head.lines text.now head.text.now) }
{
    let rest = match read_opening(text) {
        Ok(rest) => rest,
        Err(line) => return Err(ListsFault::BadLine { line }),
    };
    let levels = read_levels(alloc, rest)?;
    let count = levels.regions.len() as u32;
    if count == 0 {
        return Err(ListsFault::BadLine { line: 3 });
    }
    match covered(&levels.regions) {
        None => Err(ListsFault::BadLine { line: 2 + count }),
        Some(border) => Ok(head_behind(count, border, levels.text)),
    }
}
