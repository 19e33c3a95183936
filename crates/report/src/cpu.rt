// The processor that a member is for.
ghost use Rattle.std.specs.Prelude.{◌≡◌};
ghost use Rattle.report.specs.Cpus.{cpu_of, cputype_of};

use std::fmt;

pub const CPU_TYPE_X86: u32 = 0x7;

pub const CPU_TYPE_ARM: u32 = 0xc;

pub const CPU_TYPE_POWERPC: u32 = 0x12;

pub const CPU_TYPE_X86_64: u32 = 0x0100_0007;

pub const CPU_TYPE_ARM64: u32 = 0x0100_000c;

pub const CPU_TYPE_POWERPC64: u32 = 0x0100_0012;

pub const CPU_TYPE_ARM64_32: u32 = 0x0200_000c;

// The processors that have a name here, and any other.
#[derive(Clone, Copy, PartialEq, Eq, Debug)]
pub enum CpuType {
    I386,
    Arm,
    PowerPc,
    X86_64,
    Arm64,
    PowerPc64,
    Arm64_32,
    Other(u32),
}

// By the `cputype` of a universal file's record.
impl From<u32> for CpuType {
    ghost from_gives = { λ n cpu. cpu ≡ cpu_of n };

    fn from(cputype: u32) -> CpuType {
        match cputype {
            CPU_TYPE_X86 => CpuType::I386,
            CPU_TYPE_ARM => CpuType::Arm,
            CPU_TYPE_POWERPC => CpuType::PowerPc,
            CPU_TYPE_X86_64 => CpuType::X86_64,
            CPU_TYPE_ARM64 => CpuType::Arm64,
            CPU_TYPE_POWERPC64 => CpuType::PowerPc64,
            CPU_TYPE_ARM64_32 => CpuType::Arm64_32,
            n => CpuType::Other(n),
        }
    }
}

impl CpuType {
    // The `cputype` that it stands for.
    pub fn cputype(self) -> u32
        ensures { result ≡ cputype_of self }
    {
        match self {
            CpuType::I386 => CPU_TYPE_X86,
            CpuType::Arm => CPU_TYPE_ARM,
            CpuType::PowerPc => CPU_TYPE_POWERPC,
            CpuType::X86_64 => CPU_TYPE_X86_64,
            CpuType::Arm64 => CPU_TYPE_ARM64,
            CpuType::PowerPc64 => CPU_TYPE_POWERPC64,
            CpuType::Arm64_32 => CPU_TYPE_ARM64_32,
            CpuType::Other(n) => n,
        }
    }
}

// The names that Apple's tools use.
impl fmt::Display for CpuType {
    fn fmt<W: fmt::Write>(&self, f: &mut fmt::Formatter<W>) -> fmt::Result {
        f.pad(match self {
            CpuType::I386 => "i386",
            CpuType::Arm => "arm",
            CpuType::PowerPc => "ppc",
            CpuType::X86_64 => "x86_64",
            CpuType::Arm64 => "arm64",
            CpuType::PowerPc64 => "ppc64",
            CpuType::Arm64_32 => "arm64_32",
            CpuType::Other(_) => "unknown",
        })
    }
}
