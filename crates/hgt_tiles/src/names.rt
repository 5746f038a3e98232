//! The names of HGT tiles.

ghost use Rattle.std.specs.Prelude.{◌≡◌, ◌≤◌};
ghost use Rattle.std.specs.Result.{result_ok};
ghost use Rattle.terrain_model.specs.Name.{is_either_case, degrees, latitude, longitude, is_extension, corner_of_name, name_of_word, corner_of_word};

use terrain_model::Corner;
use thiserror::Error;

/// A word that doesn't name an HGT tile.
#[derive(Clone, Copy, Debug, PartialEq, Eq, Error)]
#[error("not the name of an HGT tile")]
pub struct BadName;

/// Reads the south-west corner of a tile off its name.
///
/// The name is what stands after the last `/` of `word`, or all of it where there is none. It has
/// exactly eleven characters, as `N45E006.hgt`: `N` or `S` and two digits of latitude, `E` or `W` and
/// three digits of longitude, and `.hgt`, each letter in either case. South and west are negative. The
/// latitude is -90 to 89 and the longitude -180 to 179. Any other word is a `BadName`.
#[tactic(auto, unfolding(terrain_model::specs::Name::corner_of_word))]
pub fn read_name(word: &str) -> Result<Corner, BadName>
    ensures { result_ok result ≡ corner_of_word word.now }
{
    corner_of(name_in(word)).ok_or(BadName)
}

// The bytes of `word` after its last `/`, or all of them.
#[tactic(auto, unfolding(terrain_model::specs::Name::name_of_word))]
fn name_in(word: &str) -> &[u8]
    ensures { result.now ≡ name_of_word word.now }
{
    let bytes = word.as_bytes();
    match word.rfind('/') {
        Some(slash) => &bytes[slash + 1..],
        None => bytes,
    }
}

// The corner that the eleven characters of a name give.
#[tactic(auto, unfolding(terrain_model::specs::Name::corner_of_name))]
fn corner_of(name: &[u8]) -> Option<Corner>
    ensures { result ≡ corner_of_name name.now }
{
    if name.len() != 11 || !is_hgt(name[7], name[8], name[9], name[10]) {
        return None;
    }
    let lat = read_latitude(name[0], name[1], name[2])?;
    let lon = read_longitude(name[3], name[4], name[5], name[6])?;
    Some(Corner { lat, lon })
}

// Are these four characters `.hgt`, in either case?
#[tactic(auto, unfolding(terrain_model::specs::Name::is_extension))]
fn is_hgt(dot: u8, h: u8, g: u8, t: u8) -> bool
    ensures { result ≡ is_extension dot h g t }
{
    dot == b'.' && is_letter(b'h', h) && is_letter(b'g', g) && is_letter(b't', t)
}

// Is `c` the letter that `lower` is, in either case?
#[tactic(auto, unfolding(terrain_model::specs::Name::is_either_case))]
fn is_letter(lower: u8, c: u8) -> bool
    requires { 32 ≤ lower }
    ensures { result ≡ is_either_case lower c }
{
    c == lower || c == lower - 32
}

// The degrees of latitude that `N` or `S` and two digits give.
#[tactic(auto, unfolding(terrain_model::specs::Name::latitude))]
fn read_latitude(side: u8, tens: u8, ones: u8) -> Option<i16>
    ensures { result ≡ latitude side tens ones }
{
    if !tens.is_ascii_digit() || !ones.is_ascii_digit() {
        return None;
    }
    let number = 10 * u16::from(tens - b'0') + u16::from(ones - b'0');
    signed_degrees(is_letter(b'n', side), is_letter(b's', side), 90, number)
}

// The degrees of longitude that `E` or `W` and three digits give.
#[tactic(auto, unfolding(terrain_model::specs::Name::longitude))]
fn read_longitude(side: u8, hundreds: u8, tens: u8, ones: u8) -> Option<i16>
    ensures { result ≡ longitude side hundreds tens ones }
{
    if !hundreds.is_ascii_digit() || !tens.is_ascii_digit() || !ones.is_ascii_digit() {
        return None;
    }
    let number = 100 * u16::from(hundreds - b'0')
        + 10 * u16::from(tens - b'0')
        + u16::from(ones - b'0');
    signed_degrees(is_letter(b'e', side), is_letter(b'w', side), 180, number)
}

// `number` degrees towards the first side, where they are fewer than `limit`, or towards the second,
// where they are negative and at most `limit`.
#[tactic(auto, unfolding(terrain_model::specs::Name::degrees))]
fn signed_degrees(is_first: bool, is_second: bool, limit: u16, number: u16) -> Option<i16>
    requires { limit ≤ 999 }
    ensures { result ≡ degrees is_first is_second limit number }
{
    if is_first && number < limit {
        Some(number as i16)
    } else if is_second && number <= limit {
        Some(-(number as i16))
    } else {
        None
    }
}
