//! What directives say of the modules behind them: time scales and the type of implicit nets.
#![tactic(auto)]

mod precisions;
mod settings;

pub use precisions::{coarse_precision, finest_precision, tick_of};
pub use settings::{Settings, SettingsList, settings_of};

#[cfg(test)]
mod tests;
