//! What is chosen of a netlist text.
ghost use Rattle.std.specs.Prelude.{◌≡◌};
ghost use Rattle.std.specs.Option.{option_copied};

use byte_lists::Bytes;
use chosen_delays::Mtm;

/// The bytes of a name as a module has it.
pub type NameText = Bytes;

/// The name of the top, and which amounts of delays are taken. Without a name the top is the last module in
/// the text that no module instantiates.
#[derive(Debug, Drop)]
pub struct Choice {
    pub top: Option<NameText>,
    pub delays: Mtm,
}

impl Choice {
    /// The name of the top, where one is chosen.
    pub(crate) fn top_name(&self) -> Option<&[u8]>
        ensures { option_copied result ≡ self.now.top }
    {
        match &self.top {
            Some(name) => Some(name.as_slice()),
            None => None,
        }
    }
}
