//! Examples of the octree at work.
#![tactic(auto)]

#[cfg(test)]
mod tests {
    use block::{Block, Cell, Run};
    use octree::{Group, Octree};
    use refusals::{BoxSide, Refusal};

    fn cell(x: usize, y: usize, z: usize) -> Cell {
        Cell { x, y, z }
    }

    // As in the tests of a layer: one helper for both would be a public function of a library, with a contract for a line.
    fn run(y: usize, z: usize, start: usize, end: usize) -> Run {
        Run { y, z, start, end }
    }

    #[test]
    fn four_cells_take_one_group(rt: HostRuntime) {
        let mut groups = [Group::EMPTY; 1];
        let mut tree = Octree::new(BoxSide::Two, &mut groups);
        assert_eq!(rt; tree.flip(run(0, 0, 0, 2)), Ok(()));
        assert_eq!(rt; tree.flip(run(1, 0, 0, 1)), Ok(()));
        assert_eq!(rt; tree.flip(run(0, 1, 0, 1)), Ok(()));
        assert_eq!(rt; tree.look(cell(0, 1, 0)), Ok(true));
        assert_eq!(rt; tree.look(cell(1, 1, 0)), Ok(false));
    }

    #[test]
    fn without_groups_only_whole_boxes_fit(rt: HostRuntime) {
        let mut groups: [Group; 0] = [];
        let mut tree = Octree::new(BoxSide::Two, &mut groups);
        assert_eq!(rt; tree.flip(run(0, 0, 0, 2)), Err(Refusal::NoSand));
        assert_eq!(rt; tree.flip(run(1, 0, 0, 1)), Err(Refusal::NoSand));
        assert_eq!(rt; tree.look(cell(0, 0, 0)), Ok(false));
    }

    #[test]
    fn the_lower_half_frees_for_the_upper(rt: HostRuntime) {
        let mut groups = [Group::EMPTY; 2];
        let mut tree = Octree::new(BoxSide::Four, &mut groups);
        assert_eq!(rt; tree.flip(run(0, 0, 1, 2)), Ok(()));
        assert_eq!(rt; tree.flip(run(0, 0, 1, 3)), Ok(()));
        assert_eq!(rt; tree.look(cell(1, 0, 0)), Ok(false));
        assert_eq!(rt; tree.look(cell(2, 0, 0)), Ok(true));
    }

    #[test]
    fn the_upper_half_frees_for_the_lower(rt: HostRuntime) {
        let mut groups = [Group::EMPTY; 2];
        let mut tree = Octree::new(BoxSide::Four, &mut groups);
        assert_eq!(rt; tree.flip(run(0, 0, 2, 3)), Ok(()));
        assert_eq!(rt; tree.flip(run(0, 0, 1, 3)), Ok(()));
        assert_eq!(rt; tree.look(cell(1, 0, 0)), Ok(true));
        assert_eq!(rt; tree.look(cell(2, 0, 0)), Ok(false));
    }

    #[test]
    fn cleared_groups_serve_again(rt: HostRuntime) {
        let mut groups = [Group::EMPTY; 6];
        let mut tree = Octree::new(BoxSide::SixtyFour, &mut groups);
        assert_eq!(rt; tree.flip(run(5, 60, 33, 34)), Ok(()));
        assert_eq!(rt; tree.flip(run(5, 59, 33, 34)), Err(Refusal::NoSand));
        assert_eq!(rt; tree.flip(run(5, 60, 33, 34)), Ok(()));
        assert_eq!(rt; tree.look(cell(33, 5, 60)), Ok(false));
        assert_eq!(rt; tree.flip(run(40, 2, 63, 64)), Ok(()));
        assert_eq!(rt; tree.look(cell(63, 40, 2)), Ok(true));
    }

    #[test]
    fn cells_outside_the_box_are_refused(rt: HostRuntime) {
        let mut groups = [Group::EMPTY; 1];
        let mut tree = Octree::new(BoxSide::Two, &mut groups);
        assert_eq!(rt; tree.look(cell(2, 0, 0)), Err(Refusal::OffBox));
        assert_eq!(rt; tree.look(cell(0, 2, 0)), Err(Refusal::OffBox));
        assert_eq!(rt; tree.look(cell(0, 0, 2)), Err(Refusal::OffBox));
        assert_eq!(rt; tree.flip(run(0, 2, 0, 1)), Err(Refusal::OffBox));
        assert_eq!(rt; tree.flip(run(0, 0, 1, 1)), Err(Refusal::OffBox));
        assert_eq!(rt; tree.flip(run(0, 0, 1, 3)), Err(Refusal::OffBox));
        assert_eq!(rt; tree.side().cells(), 2);
    }
}
