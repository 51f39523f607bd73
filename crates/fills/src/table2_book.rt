// The common book that is shipped: Table 2 of document 01 (002, clause 5.7.2) as a fill book (02, P4), for calls that are lent no other.
//
// `docs/table2.csv` has the same bytes, for members to open.
ghost use Rattle.std.specs.Prelude.{◌≡◌};
ghost use Rattle.fills.specs.table2_book.Text.{table2_text};

// The book, a row for each place of Table 2 that is not blank.
pub fn bytes() -> [u8; 260]
    ensures { result ≡ table2_text }
{
    *b"\
        ,1,1,4609,\r\n\
        ,1,2,4471,\r\n\
        ,1,3,4707,\r\n\
        ,1,4,5962,\r\n\
        ,1,5,8786,\r\n\
        ,2,1,6178,\r\n\
        ,2,2,5805,\r\n\
        ,2,3,6276,\r\n\
        ,2,4,7649,\r\n\
        ,2,5,10787,\r\n\
        ,3,1,7355,\r\n\
        ,3,2,7511,\r\n\
        ,3,3,8090,\r\n\
        ,3,4,9571,\r\n\
        ,3,5,13494,\r\n\
        ,4,1,15690,\r\n\
        ,4,2,16186,\r\n\
        ,4,3,17893,\r\n\
        ,5,1,18828,\r\n\
        ,5,2,20306,\r\n\
        ,5,3,21189,\r\n\
    "
}
