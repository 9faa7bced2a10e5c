// Any of the five methods, chosen call by call.
use method::category::Category;
use method::contract_demand::ContractDemand;
use method::later_three::LaterThree;
use method::previous_three::PreviousThree;
use method::test_meter::TestMeter;

/// It is no `Method` itself: a method's type names its uses once and for all, and the five name different ones.
#[derive(Clone, Copy)]
pub enum AnyMethod {
    Category(Category),
    TestMeter(TestMeter),
    PreviousThree(PreviousThree),
    LaterThree(LaterThree),
    ContractDemand(ContractDemand),
}
