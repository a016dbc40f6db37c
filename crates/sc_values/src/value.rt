//! Kinds and values.

ghost use Rattle.std.specs.Prelude.{◌≡◌, false};
ghost use Rattle.sc_values.specs.Operator.{kind_of, initial_value};

/// The kind of a variable or of a value.
#[derive(Clone, Copy, Debug, Default, PartialEq, Eq)]
pub enum Kind {
    #[default]
    Bool,
    Int,
}

/// A value of one of the two kinds. An integer has 32 bits, in two's complement.
#[derive(Clone, Copy, PartialEq, Eq)]
pub enum Value {
    Bool(bool),
    Int(i32),
}

impl Kind {
    /// What a variable of this kind holds before anything is written: `false` or 0.
    pub fn initial(self) -> Value
        ensures { result ≡ initial_value self }
    {
        match self {
            Kind::Bool => Value::Bool(false),
            Kind::Int => Value::Int(0),
        }
    }
}

impl Value {
    /// Its kind.
    pub fn kind(self) -> Kind
        ensures { result ≡ kind_of self }
    {
        match self {
            Value::Bool(_) => Kind::Bool,
            Value::Int(_) => Kind::Int,
        }
    }
}

// What fills the places of operands that hold none.
impl Default for Value {
    fn default() -> Value
        ensures { result ≡ Value.Bool false }
    {
        Value::Bool(false)
    }
}
