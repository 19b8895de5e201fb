// The numbers of the nodes in job order, behind the machine.
ghost use Rattle.tables.specs.View.{Published};
ghost use Rattle.table_blank.specs.Labels.{Labelled};

// 24 of them, of which those of the job's nodes count.
pub fn store_labels(s: &mut [u8], labels: [u8; 24])
    requires { Published s.old }
    ensures { Labelled labels s.old s.new }
{
    s[tables::MACHINE_LEN..tables::STATE_LEN].copy_from_slice(&labels);
}
