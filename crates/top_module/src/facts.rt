use agm_net::{Range, Way};

/// The way and range of a port.
#[derive(Clone, Copy, Debug, PartialEq, Eq)]
pub struct Kind {
    pub way: Way,
    pub range: Option<Range>,
}

/// Which marks stand before the declarations of a name: attributes named `AGEMA`, by their values.
#[derive(Clone, Copy, Debug, PartialEq, Eq)]
pub struct MarkSet {
    /// Whether some mark is `"secure"`.
    pub secure: bool,
    /// Whether some mark is `"public"`.
    pub public: bool,
    /// Whether some mark is `"clock"`.
    pub clock: bool,
    /// Whether some mark has no value, or a value that is none of these.
    pub unknown: bool,
}

/// What the declarations of a module say of a name.
#[derive(Clone, Copy, Debug, PartialEq, Eq)]
pub struct PortFacts {
    /// By the first declaration with a way that names it, where there is one.
    pub kind: Option<Kind>,
    /// By all declarations that name it, with a way or with `wire`.
    pub marks: MarkSet,
}
