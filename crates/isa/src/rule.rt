// What stands in a form's field for the constant: itself, one less, half of it or a quarter.
#[derive(Clone, Copy, Debug, PartialEq, Eq)]
pub enum Rule {
    Plain,
    LessOne,
    Half,
    Quarter,
}
