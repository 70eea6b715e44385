//! From the root of a namespace down along a path.
ghost use Rattle.std.specs.Prelude.{◌≡◌};
ghost use Rattle.mt_mounts.specs.Walk.{walk};

use crate::forest::Forest;
use crate::mount::{Place, SpaceId};
use mt_skel::fault::Fault;
use mt_skel::name::Name;
use mt_skel::skel::Skel;

impl Forest {
    /// The place that a path leads to in a namespace: after each name the topmost mount of the
    /// stack that stands there. The walk begins at the root of the namespace's root mount, even if
    /// a mount stands on that.
    ///
    /// Refused as `NoNamespace` if the namespace has no root mount, and as `NoEntry` if a directory
    /// of the path is not there.
    pub fn walk(&self, skel: &Skel, space: SpaceId, path: &[Name]) -> Result<Place, Fault>
        ensures { result ≡ walk skel.now self.now.mounts space path.now }
    {
        let Some(root) = self.root_mount(space) else {
            return Err(Fault::NoNamespace);
        };
        let mut here = Place {
            mount: root.id,
            dir: root.root,
        };
        for name in path {
            let Some(dir) = skel.child(here.dir, name) else {
                return Err(Fault::NoEntry);
            };
            here = self.top(Place {
                mount: here.mount,
                dir,
            });
        }
        Ok(here)
    }
}
