// The text of acts and items, as listings show it.
ghost use Rattle.std.specs.Prelude.{Some};
ghost use Rattle.text.specs.Text.{text};
ghost use Rattle.act.specs.Text.{item_text};

use crate::act::Act;
use crate::item::Item;
use std::fmt;
use text::mnemonic::Mnemonic;
use text::operation::Text;

impl fmt::Display for Act {
    ghost output = { λ a. Some (text a.operation) };

    fn fmt<W: fmt::Write>(&self, f: &mut fmt::Formatter<W>) -> fmt::Result {
        let text = Text(self.operation);
        write!(f, "{text}")
    }
}

impl fmt::Display for Item {
    ghost output = { λ i. Some (item_text i) };

    fn fmt<W: fmt::Write>(&self, f: &mut fmt::Formatter<W>) -> fmt::Result {
        match *self {
            Item::Act(act) => write!(f, "{act}"),
            Item::Branch { branch, label } => {
                let name = Mnemonic::Relative(branch).name();
                write!(f, "{name} @{label}")
            }
        }
    }
}
