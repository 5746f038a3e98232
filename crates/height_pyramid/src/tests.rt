use crate::Grid;
use std::test::Fail;

#[test]
fn a_grid_of_one_sample(rt: HostRuntime) -> Result<(), Fail> {
    let grid = Grid::new(1, 1, vec![in rt.alloc(); 7i16]?);
    assert_eq!(rt; (grid.width(), grid.height()), (1, 1));
    assert_eq!(rt; (grid.least(), grid.most()), (7, 7));
    assert_eq!(rt; grid.level_size(11), (1, 1));
    assert_eq!(rt; grid.level_height(11, 0, 0), 7);
    assert_eq!(rt; grid.level_height(11, 1, 0), 0);
    Ok(())
}

#[test]
fn a_grid_of_three_columns_and_two_rows(rt: HostRuntime) -> Result<(), Fail> {
    let grid = Grid::new(3, 2, vec![in rt.alloc(); 5i16, -3, 4, 9, 8, 6]?);
    assert_eq!(rt; (grid.least(), grid.most()), (-3, 9));
    assert_eq!(rt; grid.level_size(0), (3, 2));
    assert_eq!(rt; grid.level_size(1), (2, 1));
    assert_eq!(rt; grid.level_height(0, 1, 0), -3);
    assert_eq!(rt; grid.level_height(0, 0, 1), 9);
    assert_eq!(rt; grid.level_height(1, 1, 0), 4);
    assert_eq!(rt; grid.level_height(0, -1, 0), 0);
    assert_eq!(rt; grid.level_height(0, 0, 2), 0);
    Ok(())
}
