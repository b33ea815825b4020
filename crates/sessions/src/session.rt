// An open layer over a tree; sealed, it takes no more edits; parted, it is a layer again.
ghost use Rattle.std.specs.Prelude.{◌≡◌, []};
ghost use Rattle.sessions.specs.Sessions.{marks_in};

use layers::layer::Layer;

pub mod copies;
pub mod editing;
pub mod seen;
pub mod shown;

#[derive(Drop)]
pub struct Session<T> {
    layer: Layer,
    lower: T,
}

// A session that takes no more edits.
#[derive(Drop)]
pub struct Sealed<T> {
    session: Session<T>,
}

impl<T> Session<T> {
    // A layer without rows over a tree.
    pub fn open(tree: T) -> Session<T>
        ensures marks { marks_in result ≡ [] }
        ensures lower { result.lower ≡ tree }
    {
        Session {
            layer: Layer::new(),
            lower: tree,
        }
    }

    // That layer over a tree.
    pub fn lay(layer: Layer, tree: T) -> Session<T>
        ensures layer { result.layer ≡ layer }
        ensures lower { result.lower ≡ tree }
    {
        Session { layer, lower: tree }
    }

    // No more edits.
    pub fn seal(self) -> Sealed<T>
        ensures { result.session ≡ self }
    {
        Sealed { session: self }
    }
}

impl<T> Sealed<T> {
    // The layer and the tree below it.
    pub fn part(self) -> (Layer, T)
        ensures layer { result.0 ≡ self.session.layer }
        ensures lower { result.1 ≡ self.session.lower }
    {
        let Sealed {
            session: Session { layer, lower },
        } = self;
        (layer, lower)
    }
}
