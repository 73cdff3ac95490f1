//! The calculator's methods: their names, kinds and uploads.

ghost use Rattle.std.specs.Prelude.{◌≡◌};
ghost use Rattle.hub_calc.specs.Methods.{is_stream, methods, named, uploads_of};

/// A method of the calculator.
#[derive(Clone, Copy, Debug, PartialEq, Eq)]
pub(crate) enum Method {
    Echo,
    Add,
    Count,
    Sum,
    Slow,
    Fail,
    Ask,
}

impl Method {
    /// The method that a target names.
    pub(crate) fn of_target(target: &str) -> Option<Method>
        ensures { result ≡ named target.now methods }
    {
        match target {
            "Echo" => Some(Method::Echo),
            "Add" => Some(Method::Add),
            "Count" => Some(Method::Count),
            "Sum" => Some(Method::Sum),
            "Slow" => Some(Method::Slow),
            "Fail" => Some(Method::Fail),
            "Ask" => Some(Method::Ask),
            _ => None,
        }
    }

    /// Whether it gives items.
    pub(crate) fn is_stream(self) -> bool
        ensures { result ≡ is_stream self }
    {
        match self {
            Method::Count => true,
            Method::Echo => false,
            Method::Add => false,
            Method::Sum => false,
            Method::Slow => false,
            Method::Fail => false,
            Method::Ask => false,
        }
    }

    /// How many uploads come with a call of it.
    pub(crate) fn uploads(self) -> usize
        ensures { result ≡ uploads_of self }
    {
        match self {
            Method::Sum => 1,
            Method::Echo => 0,
            Method::Add => 0,
            Method::Count => 0,
            Method::Slow => 0,
            Method::Fail => 0,
            Method::Ask => 0,
        }
    }
}
