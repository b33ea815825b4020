// The one line that a refusal prints.
ghost use Rattle.std.specs.Prelude.{◌≡◌, IfOk, Some, string_bytes};
ghost use Rattle.reports.specs.declared.refusal.Reason.TheVariants.{Manifest as OfManifest, Layer as OfLayer};
ghost use Rattle.reports.specs.Refusals.{reason_fields, subject, refusal as refusal_of};

use layer_fields::fault::LayerFault;
use manifests::fault::ManifestFault;
use std::alloc::{AllocError, Global};
use std::error::Error;
use std::fmt;
use trees::fault::Fault;

// Every kind of fault that a program may have to print.
#[derive(Clone, Copy, PartialEq, Eq, Debug)]
pub enum Reason {
    Tree(Fault),
    Manifest(ManifestFault),
    Layer(LayerFault),
}

impl From<ManifestFault> for Reason {
    ghost from_gives = { λ e r. r ≡ OfManifest e };

    fn from(fault: ManifestFault) -> Reason {
        Reason::Manifest(fault)
    }
}

impl From<LayerFault> for Reason {
    ghost from_gives = { λ e r. r ≡ OfLayer e };

    fn from(fault: LayerFault) -> Reason {
        Reason::Layer(fault)
    }
}

impl Reason {
    // What of a folder is refused for that reason.
    pub fn subject(self) -> &'static str
        ensures { result.now ≡ subject self }
    {
        match self {
            Reason::Tree(_) => "list",
            Reason::Manifest(_) => "base.mtree",
            Reason::Layer(_) => "top.lay",
        }
    }
}

impl fmt::Display for Reason {
    ghost output = { λ r. Some (reason_fields r) };

    fn fmt<W: fmt::Write>(&self, f: &mut fmt::Formatter<W>) -> fmt::Result {
        match self {
            Reason::Tree(fault) => write!(f, "{fault}"),
            Reason::Manifest(fault) => write!(f, "{fault}"),
            Reason::Layer(fault) => write!(f, "{fault}"),
        }
    }
}

impl Error for Reason {}

// The line that says what was refused, a file or a call, and why.
pub fn refusal(heap: Global, subject: &str, reason: Reason) -> Result<String, AllocError>
    ensures { IfOk result (λ s. string_bytes s ≡ refusal_of subject.now reason) }
{
    format!(in heap; "refused {subject} {reason}\n")
}
