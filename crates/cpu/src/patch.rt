// A breakpoint in the code, which is taken out again when the patch ends.
ghost use Rattle.std.specs.Prelude.{◌≡◌, ◌+◌, ◌<◌, length};
ghost use Rattle.cpu.specs.Patch.{on_ok, patched, restored, put_back};

use refusal::refusal::Refusal;

// Where bkpt is set, and the halfword that stood there, low byte first.
#[derive(Clone, Copy)]
pub struct Breakpoint {
    pub(crate) at: usize,
    pub(crate) halfword: [u8; 2],
}

impl Breakpoint {
    pub(crate) fn set(code: &mut [u8], at: usize) -> Breakpoint
        requires { at + 1 < length code.old }
        ensures at { result.at ≡ at }
        ensures bytes { code.new ≡ patched code.old at }
        ensures back { restored code.new at result.halfword ≡ code.old }
    {
        let halfword = [code[at], code[at + 1]];
        code[at] = 0;
        code[at + 1] = 0;
        Breakpoint { at, halfword }
    }

    fn clear(self, code: &mut [u8])
        ensures { code.new ≡ restored code.old self.at self.halfword }
    {
        let [low, high] = self.halfword;
        if self.at < code.len() && code.len() - self.at >= 2 {
            code[self.at] = low;
            code[self.at + 1] = high;
        }
    }
}

// Holds the code for writing, with the breakpoint or why it was refused.
pub struct Patch<'a> {
    pub(crate) code: &'a mut [u8],
    pub(crate) breakpoint: Result<Breakpoint, Refusal>,
}

impl Drop for Patch<'_> {
    fn drop(self)
        ensures { self.exit.0.now ≡ put_back self.entry.breakpoint self.entry.code.now }
    {
        let Patch { code, breakpoint } = self;
        if let Ok(breakpoint) = breakpoint {
            breakpoint.clear(code);
        }
    }
}

impl<'a> Patch<'a> {
    // The code as it stands, with the breakpoint.
    pub fn bytes(&self) -> &[u8]
        ensures { result.now ≡ self.now.code.now }
    {
        &*self.code
    }

    // Whether the breakpoint is set, or why not.
    pub fn ready(&self) -> Result<(), Refusal>
        ensures { result ≡ on_ok (λ _. tt) self.now.breakpoint }
    {
        self.breakpoint.map(|_| ())
    }
}
