use group_config::MemberSettings;
use std::alloc::{AllocError, Global};

/// The keys of a group in etcd: `alive/NAME`, `seen/NAME` and `dead`, all under its root.
#[derive(Drop)]
pub(crate) struct Keys {
    alloc: Global,
    /// Before all of them.
    pub(crate) root: String,
    /// Behind all of them.
    pub(crate) end: String,
    /// Who is dead.
    pub(crate) dead: String,
}

impl Keys {
    /// Those of the settings' group.
    pub(crate) fn new(alloc: Global, settings: &MemberSettings) -> Result<Keys, AllocError> {
        let group = hex::encode(alloc, &settings.group)?;
        Ok(Keys {
            alloc,
            root: format!(in alloc; "/cocytus/{group}/")?,
            end: format!(in alloc; "/cocytus/{group}0")?,
            dead: format!(in alloc; "/cocytus/{group}/dead")?,
        })
    }

    /// That a member is there.
    pub(crate) fn alive(&self, name: &str) -> Result<String, AllocError> {
        format!(in self.alloc; "{}alive/{name}", self.root.as_str())
    }

    /// That a member was there.
    pub(crate) fn seen(&self, name: &str) -> Result<String, AllocError> {
        format!(in self.alloc; "{}seen/{name}", self.root.as_str())
    }
}
