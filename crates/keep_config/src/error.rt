// Why a text isn't a configuration.
use keep_spec::{Field, NoMemory};

/// Why a configuration wasn't read.
#[derive(Clone, Copy, Debug, PartialEq, Eq)]
pub enum ConfigError {
    /// The text isn't a configuration: this is the first field that isn't as required.
    BadConfig { field: Field },
    /// Memory was refused.
    NoMemory,
}

impl From<NoMemory> for ConfigError {
    ghost use Rattle.std.specs.Prelude.{◌≡◌};
    ghost use Rattle.keep_config.specs.declared.error.ConfigError.TheVariants as variant;

    ghost from_gives = { λ _ e. e ≡ variant.NoMemory };

    fn from(_error: NoMemory) -> ConfigError {
        ConfigError::NoMemory
    }
}
