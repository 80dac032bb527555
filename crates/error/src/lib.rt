// The refusals of every call, and the numbers that a caller gets back: error.rs and the enum of validation.rs.
#![tactic(auto)]

ghost use Rattle.std.specs.Prelude.{◌≡◌};
ghost use Rattle.error.specs.declared.DpeErrorCode.TheVariants.{Validation};
ghost use Rattle.error.specs.Numbers.{outer_of, inner_of, internal_of, validation_of, added_of, word_of};

// Something that should never occur in a sound table.
#[derive(Clone, Copy, Debug, PartialEq, Eq)]
pub enum InternalErrorCode {
    HandleGenerationExhausted,
    ChildIndexOob,
    ChildrenBitmapIndexOob,
    ContextIndexOob,
    TciNodeCountExceeded,
    DestroyParentIndexOob,
}

// A fault of the table; the bad state and type bytes come from reading an image only.
#[derive(Clone, Copy, Debug, PartialEq, Eq)]
pub enum ValidationError {
    MultipleNormalConnectedComponents,
    CyclesInTree,
    InactiveContextInvalidParent,
    InactiveContextWithChildren,
    BadContextState,
    BadContextType,
    InactiveContextWithMeasurement,
    MixedContextLocality,
    MultipleDefaultContexts,
    SimulationNotSupported,
    ParentDoesNotExist,
    InternalDiceNotSupported,
    InternalInfoNotSupported,
    ChildDoesNotExist,
    InactiveContextWithFlagSet,
    LocalityMismatch,
    DanglingRetiredContext,
    MixedContextTypeConnectedComponents,
    ChildWithMultipleParents,
    ParentChildLinksCorrupted,
    AllowCaNotSupported,
    AllowX509NotSupported,
    InactiveParent,
    InactiveChild,
    DpeNotMarkedInitialized,
    InvalidMarker,
    VersionMismatch,
}

// The refusals that the Rust has no number for.
#[derive(Clone, Copy, Debug, PartialEq, Eq)]
pub enum AddedErrorCode {
    BadLength,
    WalkLoops,
    CandidatesShort,
}

// A refusal: three cases carry an inner enum.
#[derive(Clone, Copy, Debug, PartialEq, Eq)]
pub enum DpeErrorCode {
    InternalError(InternalErrorCode),
    InvalidCommand,
    InvalidArgument,
    InvalidHandle,
    InvalidLocality,
    ArgumentNotSupported,
    MaxTcis,
    Validation(ValidationError),
    Added(AddedErrorCode),
}

impl From<ValidationError> for DpeErrorCode {
    ghost from_gives = { λ v e. e ≡ Validation v };

    fn from(v: ValidationError) -> DpeErrorCode {
        DpeErrorCode::Validation(v)
    }
}

// The numbers of the refusals are what the C interface hands out. They stand in matches: a case that carries an inner enum has no discriminant of
// its own, and the edit number_of_a_fault gives two faults one number, which discriminants cannot have.

// The number of an internal error.
pub fn internal(i: InternalErrorCode) -> u32
    ensures { result ≡ internal_of i }
{
    match i {
        InternalErrorCode::HandleGenerationExhausted => 22,
        InternalErrorCode::ChildIndexOob => 27,
        InternalErrorCode::ChildrenBitmapIndexOob => 28,
        InternalErrorCode::ContextIndexOob => 30,
        InternalErrorCode::TciNodeCountExceeded => 34,
        InternalErrorCode::DestroyParentIndexOob => 35,
    }
}

// The number of a validation error.
pub fn validation(v: ValidationError) -> u32
    ensures { result ≡ validation_of v }
{
    match v {
        ValidationError::MultipleNormalConnectedComponents => 0x0,
        ValidationError::CyclesInTree => 0x1,
        ValidationError::InactiveContextInvalidParent => 0x2,
        ValidationError::InactiveContextWithChildren => 0x3,
        ValidationError::BadContextState => 0x4,
        ValidationError::BadContextType => 0x5,
        ValidationError::InactiveContextWithMeasurement => 0x6,
        ValidationError::MixedContextLocality => 0x7,
        ValidationError::MultipleDefaultContexts => 0x8,
        ValidationError::SimulationNotSupported => 0x9,
        ValidationError::ParentDoesNotExist => 0xA,
        ValidationError::InternalDiceNotSupported => 0xB,
        ValidationError::InternalInfoNotSupported => 0xC,
        ValidationError::ChildDoesNotExist => 0xD,
        ValidationError::InactiveContextWithFlagSet => 0xE,
        ValidationError::LocalityMismatch => 0xF,
        ValidationError::DanglingRetiredContext => 0x10,
        ValidationError::MixedContextTypeConnectedComponents => 0x11,
        ValidationError::ChildWithMultipleParents => 0x12,
        ValidationError::ParentChildLinksCorrupted => 0x13,
        ValidationError::AllowCaNotSupported => 0x14,
        ValidationError::AllowX509NotSupported => 0x15,
        ValidationError::InactiveParent => 0x16,
        ValidationError::InactiveChild => 0x17,
        ValidationError::DpeNotMarkedInitialized => 0x18,
        ValidationError::InvalidMarker => 0x19,
        ValidationError::VersionMismatch => 0x1A,
    }
}

// The number of an added error.
pub fn added(a: AddedErrorCode) -> u32
    ensures { result ≡ added_of a }
{
    match a {
        AddedErrorCode::BadLength => 1,
        AddedErrorCode::WalkLoops => 2,
        AddedErrorCode::CandidatesShort => 3,
    }
}

// The outer number.
pub fn outer(e: DpeErrorCode) -> u32
    ensures { result ≡ outer_of e }
{
    match e {
        DpeErrorCode::InternalError(_) => 1,
        DpeErrorCode::InvalidCommand => 2,
        DpeErrorCode::InvalidArgument => 3,
        DpeErrorCode::InvalidHandle => 0x80,
        DpeErrorCode::InvalidLocality => 0x81,
        DpeErrorCode::ArgumentNotSupported => 0x83,
        DpeErrorCode::MaxTcis => 0x91,
        DpeErrorCode::Validation(_) => 0x0300_0000,
        DpeErrorCode::Added(_) => 0x0400_0000,
    }
}

// The inner number, 0 where the case carries none.
pub fn inner(e: DpeErrorCode) -> u32
    ensures { result ≡ inner_of e }
{
    match e {
        DpeErrorCode::InternalError(x) => internal(x),
        DpeErrorCode::InvalidCommand => 0,
        DpeErrorCode::InvalidArgument => 0,
        DpeErrorCode::InvalidHandle => 0,
        DpeErrorCode::InvalidLocality => 0,
        DpeErrorCode::ArgumentNotSupported => 0,
        DpeErrorCode::MaxTcis => 0,
        DpeErrorCode::Validation(x) => validation(x),
        DpeErrorCode::Added(x) => added(x),
    }
}

// An ending as one word: the outer number in the high half, the inner in the low; 0 for success.
pub fn word(o: Result<(), DpeErrorCode>) -> u64
    ensures { result ≡ word_of o }
{
    match o {
        Ok(()) => 0,
        Err(e) => u64::from(outer(e)) * 0x1_0000_0000 + u64::from(inner(e)),
    }
}
