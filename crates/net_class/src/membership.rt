/// Which of the classes of nets a net belongs to (Murata 1989).
#[derive(Clone, Copy)]
pub struct Class {
    /// Every arc has the weight 1.
    pub ordinary: bool,
    /// Ordinary, and each transition has exactly one input place and exactly one output place.
    pub state_machine: bool,
    /// Ordinary, and each place has exactly one input transition and exactly one output transition.
    pub marked_graph: bool,
    /// Ordinary, and two transitions that share an input place have the same input places. Murata calls
    /// this extended free choice.
    pub free_choice: bool,
}
