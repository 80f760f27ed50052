//! The rules on shaders.
ghost use Rattle.std.specs.Prelude.{◌≡◌};
ghost use Rattle.shader_flow.specs.Rule.{number_of};

/// A rule on shaders, S1 to S27 in this order (docs/RULES.md).
#[derive(Clone, Copy, Debug, PartialEq, Eq)]
pub enum ShaderRule {
    NoWords,
    NoEnd,
    Signal,
    BranchInSlots,
    BranchByRegister,
    BranchAbsolute,
    BranchUnaligned,
    BranchOutside,
    SlotsPastEnd,
    BranchWrites,
    SwitchAfterSwitch,
    BranchAfterSwitch,
    SwitchMisplaced,
    ForbiddenRegister,
    RelativeAddress,
    InexactAddress,
    AddressInSlots,
    UniformTooEarly,
    PositionUnknown,
    TwoUnitsWrite,
    ConditionalWrite,
    FullUnit,
    UniformTakenTwice,
    UnclampedRead,
    TargetAmidSetup,
    UpperRegisters,
    LoadMode,
}

impl ShaderRule {
    /// The number behind the letter S.
    pub fn number(self) -> u8
        ensures { result ≡ number_of self }
    {
        match self {
            ShaderRule::NoWords => 1,
            ShaderRule::NoEnd => 2,
            ShaderRule::Signal => 3,
            ShaderRule::BranchInSlots => 4,
            ShaderRule::BranchByRegister => 5,
            ShaderRule::BranchAbsolute => 6,
            ShaderRule::BranchUnaligned => 7,
            ShaderRule::BranchOutside => 8,
            ShaderRule::SlotsPastEnd => 9,
            ShaderRule::BranchWrites => 10,
            ShaderRule::SwitchAfterSwitch => 11,
            ShaderRule::BranchAfterSwitch => 12,
            ShaderRule::SwitchMisplaced => 13,
            ShaderRule::ForbiddenRegister => 14,
            ShaderRule::RelativeAddress => 15,
            ShaderRule::InexactAddress => 16,
            ShaderRule::AddressInSlots => 17,
            ShaderRule::UniformTooEarly => 18,
            ShaderRule::PositionUnknown => 19,
            ShaderRule::TwoUnitsWrite => 20,
            ShaderRule::ConditionalWrite => 21,
            ShaderRule::FullUnit => 22,
            ShaderRule::UniformTakenTwice => 23,
            ShaderRule::UnclampedRead => 24,
            ShaderRule::TargetAmidSetup => 25,
            ShaderRule::UpperRegisters => 26,
            ShaderRule::LoadMode => 27,
        }
    }
}
