// The planner's list read: text to chambers and coils.
#![tactic(auto)]

mod line_said;
mod line_words;
mod list;
mod number;
mod slip;

pub use list::{OnLine, PlanList, Slipped, read_list};
pub use slip::{Slip, SlipAt};

#[cfg(test)]
mod tests {
    use super::*;

    // A copy has room of its own: no memory is asked for, and the copy is there.
    #[test]
    fn a_list_is_cloned(rt: HostRuntime) {
        let Ok(list) = read_list(b"chamber 1 2 3 4\ncoil 5 none 1 1 1\ncoil 6 none 1 1 1") else {
            assert!(rt; false, "the list has a slip");
            return;
        };
        let Ok(copy) = list.clone() else {
            assert!(rt; false, "no copy");
            return;
        };
        assert_eq!(rt; copy.chambers.len(), 1);
        assert_eq!(rt; copy.coils.len(), 2);
        assert_eq!(rt; copy.lines, 3);
    }
}
