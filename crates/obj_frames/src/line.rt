//! The line of a vertex or of a triangle, written from its end.
//!
//! A line is the bytes from a place on of an array that is used again for the next line. Each function writes
//! something before a place, and gives the place where that begins.

ghost use Rattle.std.specs.Prelude.{◌≡◌, ◌+◌, ◌≤◌, ◌<◌, ◌++◌, ◌∷◌, drop, decimal};
ghost use Rattle.std.specs.Fmt.{signed_decimal};
ghost use Rattle.mesh_model.specs.Text.{sign_text, five_digits, height_text, vertex_line, triangle_line};

use itoa::write_digits;
use mesh_model::Vertex;

// More bytes than the longest line has.
pub(crate) const ROOM: usize = 96;

// Writes a byte.
#[inline(always)]
fn write_byte(line: &mut [u8; ROOM], end: usize, byte: u8) -> usize
    requires some { 0 < end }
    requires within { end ≤ 96 }
    ensures place { result + 1 ≡ end }
    ensures written { drop result line.new ≡ byte ∷ drop end line.old }
{
    line[end - 1] = byte;
    end - 1
}

// Writes a number.
#[inline(always)]
fn write_number(line: &mut [u8; ROOM], end: usize, number: u64) -> usize
    requires room { 20 ≤ end }
    requires within { end ≤ 96 }
    ensures before { result ≤ end }
    ensures few { end ≤ result + 20 }
    ensures written { drop result line.new ≡ decimal number ++ drop end line.old }
{
    write_digits(number, line, end)
}

// Writes `-` before a negative number.
#[inline(always)]
fn write_sign(line: &mut [u8; ROOM], end: usize, number: i32) -> usize
    requires some { 0 < end }
    requires within { end ≤ 96 }
    ensures before { result ≤ end }
    ensures few { end ≤ result + 1 }
    ensures written { drop result line.new ≡ sign_text number ++ drop end line.old }
{
    if number < 0 {
        return write_byte(line, end, b'-');
    }
    end
}

// Writes a number, with its sign where it is negative.
#[inline(always)]
fn write_signed(line: &mut [u8; ROOM], end: usize, number: i32) -> usize
    requires room { 21 ≤ end }
    requires within { end ≤ 96 }
    ensures before { result ≤ end }
    ensures few { end ≤ result + 21 }
    ensures written { drop result line.new ≡ signed_decimal number ++ drop end line.old }
{
    let start = write_number(line, end, u64::from(number.unsigned_abs()));
    write_sign(line, start, number)
}

// Writes a number below 100,000 as five digits.
#[inline(always)]
fn write_five(line: &mut [u8; ROOM], end: usize, number: u32) -> usize
    requires number { number < 100000 }
    requires room { 5 ≤ end }
    requires within { end ≤ 96 }
    ensures place { result + 5 ≡ end }
    ensures written { drop result line.new ≡ five_digits number ++ drop end line.old }
{
    let fifth = write_byte(line, end, b'0' + (number % 10) as u8);
    let fourth = write_byte(line, fifth, b'0' + (number / 10 % 10) as u8);
    let third = write_byte(line, fourth, b'0' + (number / 100 % 10) as u8);
    let second = write_byte(line, third, b'0' + (number / 1000 % 10) as u8);
    write_byte(line, second, b'0' + (number / 10000) as u8)
}

// Writes a height in metres, given in thirty-seconds of a metre.
#[inline(always)]
fn write_height(line: &mut [u8; ROOM], end: usize, height: i32) -> usize
    requires room { 27 ≤ end }
    requires within { end ≤ 96 }
    ensures before { result ≤ end }
    ensures few { end ≤ result + 27 }
    ensures written { drop result line.new ≡ height_text height ++ drop end line.old }
{
    let size = height.unsigned_abs();
    let part = write_five(line, end, size % 32 * 3125);
    let point = write_byte(line, part, b'.');
    let whole = write_number(line, point, u64::from(size / 32));
    write_sign(line, whole, height)
}

// Writes the line of a vertex at the array's end.
#[inline(always)]
pub(crate) fn write_vertex(line: &mut [u8; ROOM], vertex: &Vertex) -> usize
    ensures within { result ≤ 96 }
    ensures written { drop result line.new ≡ vertex_line vertex.now }
{
    let end = write_byte(line, ROOM, b'\n');
    let z = write_signed(line, end, vertex.z);
    let before_z = write_byte(line, z, b' ');
    let height = write_height(line, before_z, vertex.height);
    let before_height = write_byte(line, height, b' ');
    let x = write_signed(line, before_height, vertex.x);
    let before_x = write_byte(line, x, b' ');
    write_byte(line, before_x, b'v')
}

// Writes the line of a triangle at the array's end.
#[inline(always)]
pub(crate) fn write_triangle(line: &mut [u8; ROOM], triangle: &[u32; 3]) -> usize
    ensures within { result ≤ 96 }
    ensures written { drop result line.new ≡ triangle_line triangle.now }
{
    let end = write_byte(line, ROOM, b'\n');
    let third = write_number(line, end, u64::from(triangle[2]) + 1);
    let before_third = write_byte(line, third, b' ');
    let second = write_number(line, before_third, u64::from(triangle[1]) + 1);
    let before_second = write_byte(line, second, b' ');
    let first = write_number(line, before_second, u64::from(triangle[0]) + 1);
    let before_first = write_byte(line, first, b' ');
    write_byte(line, before_first, b'f')
}
