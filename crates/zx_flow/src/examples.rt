// Worked labels, whose first breach the definitions give by computation.
ghost use Rattle.zx_flow.specs.Examples.{WallExchangesXAndZ, CombLabelsObey, EdgeEndsDiffer, PortLetterIsWrong, SpiderIsOdd, YEndTakesOneOrY, XSpiderIsOdd};

pub fn wall_exchanges_x_and_z()
    ensures { WallExchangesXAndZ }
{}

pub fn comb_labels_obey()
    ensures { CombLabelsObey }
{}

pub fn edge_ends_differ_at_edge_3()
    ensures { EdgeEndsDiffer }
{}

pub fn port_letter_is_wrong_at_port_1()
    ensures { PortLetterIsWrong }
{}

pub fn spider_is_odd_at_node_0()
    ensures { SpiderIsOdd }
{}

pub fn y_end_takes_one_or_y()
    ensures { YEndTakesOneOrY }
{}

pub fn x_spider_is_odd_at_node_2()
    ensures { XSpiderIsOdd }
{}
