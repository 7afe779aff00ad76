//! The numbers of the statuses that the other rows name.

use agcode_top::Status;
use code_descriptor::DescCause;

#[test]
fn a_status_has_its_number(rt: HostRuntime) {
    let cause = DescCause::NotToml;
    let statuses = [
        (Status::NotCodeword, 1),
        (Status::TableRefused { line: 1 }, 5),
        (Status::WordLength { taken: 7 }, 6),
        (Status::Salvaged, 7),
        (Status::BadMark { place: 3 }, 8),
        (Status::NoCodeword, 9),
        (Status::Ambiguous { place: 0 }, 10),
        (Status::NoDesign { most: 8 }, 11),
        (Status::Usage, 64),
        (Status::Descriptor { cause }, 65),
        (Status::DescFault, 70),
        (Status::InputFault, 71),
        (Status::OutFault, 72),
        (Status::ReportFault, 73),
    ];
    for (status, number) in statuses {
        assert_eq!(rt; status.code(), number);
    }
}
