ghost use Rattle.std.specs.Prelude.{◌≡◌, ◌<◌, ◌^◌};
ghost use Rattle.rice_residuals.specs.Code.{IsResidual, folded_limit, folded};

// How many ones a code of the long form begins with.
pub(crate) const LONG_ONES: u32 = 32;

// Short codes of fewer ones than this are codes of residuals, by any parameter.
pub(crate) const FEW_ONES: u32 = 8;

// How many bits the folded residual has behind them.
pub(crate) const NUMBER_BITS: u8 = 18;

// How many bits a code of the long form has.
pub(crate) const LONG_LENGTH: u32 = 50;

// All folded residuals are below this.
pub(crate) const FOLDED_LIMIT: u32 = 262_144;

/// The unsigned number for a residual: 2x where x is not negative, else -2x - 1. So 0, -1, 1, -2, 2 become 0, 1, 2, 3
/// and 4.
#[inline]
pub fn fold(value: i32) -> u32
    requires { IsResidual value }
    ensures code { result ≡ folded value }
    ensures below { result < folded_limit }
{
    if value < 0 {
        (-1 - value) as u32 * 2 + 1
    } else {
        value as u32 * 2
    }
}

/// The residual that folds to the code.
#[inline]
pub fn unfold(code: u32) -> i32
    requires { code < folded_limit }
    ensures residual { IsResidual result }
    ensures code { folded result ≡ code }
{
    let half = (code / 2) as i32;
    if code % 2 == 0 { half } else { -1 - half }
}
