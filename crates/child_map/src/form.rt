//! The four forms.

ghost use Rattle.child_map.specs.Form.{IsFormOf};

/// What a search does among children, by how many there are.
#[derive(Clone, Copy, Debug, PartialEq, Eq)]
pub enum Form {
    /// None, which take no memory.
    Empty,
    One,
    /// Two to nine, searched in turn.
    Few,
    /// Ten or more, searched by halving.
    Many,
}

impl Form {
    /// The form of so many children.
    pub fn of(count: usize) -> Form
        ensures { IsFormOf count result }
    {
        match count {
            0 => Form::Empty,
            1 => Form::One,
            2..=9 => Form::Few,
            _ => Form::Many,
        }
    }
}
