ghost use Rattle.std.specs.Prelude.{◌≡◌};
ghost use Rattle.qs_graph.specs.Readings.{info_of, export_name_at};

use super::World;
use qs_bytes::Name;
use qs_outside::Disk;
use qs_part::graph::ExportInfo;

impl<D: Disk + Drop> World<D> {
    /// What a client learns of the export that a name means; the empty name means the one that was made
    /// first. `None` exactly where no export has the name.
    pub fn export_info(&self, name: Name) -> Option<ExportInfo>
        ensures { result ≡ info_of self.now.graph name }
    {
        self.core.graph.export_info(&name)
    }

    /// The name of the standing export of this number in the order of making, from 0 on. `None` exactly
    /// where no more stand.
    pub fn export_name(&self, number: usize) -> Option<Name>
        ensures { result ≡ export_name_at self.now.graph number }
    {
        self.core.graph.export_name(number)
    }
}
