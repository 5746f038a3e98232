ghost use Rattle.std.specs.Prelude.{◌≡◌, pos, negsuc};

use crate::{
    Heights, Patch, bring, code_by, patch_around, predict, predict_block, residual, restore,
    value_by,
};

const LOW: i16 = -32767;

const HIGH: i16 = 32767;

#[test]
fn a_cell_between_two_takes_one_rounding_down(rt: HostRuntime) {
    // The coarser heights at columns -1 to 2 of row 0 are 0, -1, 0, 0: the sum is -9.
    let mut h = [[0i16; 7]; 7];
    h[1][1] = -1;
    let patch = Patch { i0: -1, j0: -1, h };
    assert_eq!(rt; predict(&patch, 1, 0), -1);
    // Turned round, the same along the column.
    assert_eq!(rt; predict(&patch, 0, 1), -1);
    // An even place takes the coarser height unchanged.
    assert_eq!(rt; predict(&patch, 0, 0), -1);
    assert_eq!(rt; predict(&patch, 2, 0), 0);
    // The middle of four: -81 in 256, to the nearest.
    assert_eq!(rt; predict(&patch, 1, 1), 0);
}

#[test]
fn sixteen_like_heights_predict_that_height(rt: HostRuntime) {
    let patch = Patch {
        i0: -1,
        j0: -1,
        h: [[HIGH; 7]; 7],
    };
    assert_eq!(rt; predict(&patch, 7, 7), 32767);
    assert_eq!(rt; residual(&patch, 7, 7, 32767), 0);
    assert_eq!(rt; restore(&patch, 7, 7, -5), 32762);
}

#[test]
fn the_largest_residual_over_heights_of_32767_is_83965(rt: HostRuntime) {
    // Each of the sixteen heights has the sign of its weight: the sum is 400 * 32767.
    let far = [HIGH, LOW, LOW, HIGH, 0, 0, 0];
    let near = [LOW, HIGH, HIGH, LOW, 0, 0, 0];
    let h = [far, near, near, far, [0; 7], [0; 7], [0; 7]];
    let patch = Patch { i0: -1, j0: -1, h };
    assert_eq!(rt; predict(&patch, 1, 1), 51198);
    assert_eq!(rt; residual(&patch, 1, 1, LOW), -83965);
    assert_eq!(rt; restore(&patch, 1, 1, -83965), -32767);
    // On a chessboard the weights cancel out.
    let odd = [HIGH, LOW, HIGH, LOW, HIGH, LOW, HIGH];
    let even = [LOW, HIGH, LOW, HIGH, LOW, HIGH, LOW];
    let h = [odd, even, odd, even, odd, even, odd];
    assert_eq!(rt; predict(&Patch { i0: -1, j0: -1, h }, 1, 1), 0);
}

#[test]
fn negative_cells_round_down_too(rt: HostRuntime) {
    // Cell (-1, -1) lies in block (-1, -1), whose patch begins at -5, in the middle of the coarser
    // columns and rows -1 and 0: the weights reach from -2 to 1, which are 3 to 6 in the patch.
    let mut h = [[0i16; 7]; 7];
    h[4][4] = -256;
    h[4][3] = 256;
    let patch = Patch { i0: -5, j0: -5, h };
    assert_eq!(rt; predict(&patch, -1, -1), -90);
}

#[test]
fn heights_by_steps(rt: HostRuntime) {
    // Over coarser heights of 0: the height, the step, its code, the code's value and the height of that.
    for (height, step, code, value, near) in [
        (30000i16, 3u8, 10000, 30000, 30000i16),
        (1000, 7, 143, 1001, 1001),
        (-1000, 7, -143, -1001, -1001),
        (32767, 9, 3641, 32769, 32767),
        (-32768, 255, -129, -32895, -32768),
        (5, 1, 5, 5, 5),
    ] {
        assert!(rt; step % 2 == 1);
        let patch = Patch {
            i0: -1,
            j0: -1,
            h: [[0; 7]; 7],
        };
        assert_eq!(rt; code_by(&patch, 1, 1, height, step), code);
        assert!(rt; code > -131072 && code < 131072);
        assert_eq!(rt; value_by(&patch, 1, 1, code, step), value);
        assert_eq!(rt; bring(value), near);
    }
    assert_eq!(rt;
        (bring(-32769), bring(100000), bring(-7)),
        (-32768, 32767, -7)
    );
}

// Whether each cell of block (1, -1) is predicted alike with its block and alone.
fn is_predicted_alike(patch: &Patch) -> bool
    requires column { patch.now.i0 ≡ pos 3 }
    requires row { patch.now.j0 ≡ negsuc 4 }
{
    let block = predict_block(patch);
    let mut alike = true;
    for n in 0..64u8 {
        let (i, j) = (i32::from(n % 8) + 8, i32::from(n / 8) - 8);
        alike = alike && block.predict(i, j) == predict(patch, i, j);
    }
    alike
}

#[test]
fn a_block_is_predicted_as_its_cells(rt: HostRuntime) {
    let h = [
        [3, -141, 592, 6535, -8979, 32, HIGH],
        [LOW, 38, 46, 26, -433, 8, 3],
        [27, -950, 28841, HIGH, 97, -16, 9],
        [39, 93, 7510, LOW, 5820, -97, 494],
        [4592, -307, 8, 16, 40, 628, 6],
        [HIGH, LOW, HIGH, LOW, HIGH, LOW, HIGH],
        [20, 89, -98, 62, 80, -34, 825],
    ];
    let patch = Patch { i0: 3, j0: -5, h };
    assert!(rt; is_predicted_alike(&patch));
    let block = predict_block(&patch);
    assert_eq!(rt;
        block.code_by(9, -7, 1000, 3),
        code_by(&patch, 9, -7, 1000, 3)
    );
    assert_eq!(rt;
        block.value_by(9, -7, -200, 3),
        value_by(&patch, 9, -7, -200, 3)
    );
}

struct Flat(i16);

impl Heights for Flat {
    ghost heights = { λ level a b. level.0 };

    fn height(&self, _a: i32, _b: i32) -> i16 {
        self.0
    }
}

#[test]
fn a_patch_is_filled_by_one_call(rt: HostRuntime) {
    let patch = patch_around(&Flat(9), 3, -5);
    assert_eq!(rt;
        patch,
        Patch {
            i0: 3,
            j0: -5,
            h: [[9; 7]; 7]
        }
    );
}
