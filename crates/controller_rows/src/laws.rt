// The worked rows as laws.
ghost use Rattle.controller_rows.specs.First.{Installs, Moves};
ghost use Rattle.controller_rows.specs.Upgrade as upgrade;
ghost use Rattle.controller_rows.specs.Forward as forward;
ghost use Rattle.controller_rows.specs.Manual as manual;
ghost use Rattle.controller_rows.specs.Lost as lost;

/// Each write of the installer and of phases in the row upgrade is the first that the definitions give in its view.
pub fn upgrade_row()
    ensures write_5 { Installs upgrade.view_5 upgrade.write_5 }
    ensures write_6 { Installs upgrade.view_6 upgrade.write_6 }
    ensures write_7 { Installs upgrade.view_7 upgrade.write_7 }
    ensures write_8 { Installs upgrade.view_8 upgrade.write_8 }
    ensures write_9 { Installs upgrade.view_9 upgrade.write_9 }
    ensures write_10 { Installs upgrade.view_10 upgrade.write_10 }
    ensures write_11 { Installs upgrade.view_11 upgrade.write_11 }
    ensures write_12 { Installs upgrade.view_12 upgrade.write_12 }
    ensures write_14 { Moves upgrade.view_14 upgrade.write_14 }
    ensures write_15 { Moves upgrade.view_15 upgrade.write_15 }
    ensures write_16 { Moves upgrade.view_16 upgrade.write_16 }
    ensures write_17 { Moves upgrade.view_17 upgrade.write_17 }
    ensures write_20 { Moves upgrade.view_20 upgrade.write_20 }
    ensures write_25 { Installs upgrade.view_25 upgrade.write_25 }
    ensures write_26 { Installs upgrade.view_26 upgrade.write_26 }
    ensures write_27 { Installs upgrade.view_27 upgrade.write_27 }
    ensures write_28 { Installs upgrade.view_28 upgrade.write_28 }
    ensures write_29 { Installs upgrade.view_29 upgrade.write_29 }
    ensures write_30 { Installs upgrade.view_30 upgrade.write_30 }
    ensures write_32 { Moves upgrade.view_32 upgrade.write_32 }
    ensures write_33 { Moves upgrade.view_33 upgrade.write_33 }
    ensures write_34 { Moves upgrade.view_34 upgrade.write_34 }
    ensures write_35 { Moves upgrade.view_35 upgrade.write_35 }
    ensures write_36 { Moves upgrade.view_36 upgrade.write_36 }
    ensures write_38 { Moves upgrade.view_38 upgrade.write_38 }
    ensures write_40 { Moves upgrade.view_40 upgrade.write_40 }
    ensures write_41 { Moves upgrade.view_41 upgrade.write_41 }
{}

/// Each write of the installer and of phases in the row forward is the first that the definitions give in its view.
pub fn forward_row()
    ensures write_5 { Installs forward.view_5 forward.write_5 }
    ensures write_6 { Installs forward.view_6 forward.write_6 }
    ensures write_7 { Installs forward.view_7 forward.write_7 }
    ensures write_8 { Installs forward.view_8 forward.write_8 }
    ensures write_9 { Installs forward.view_9 forward.write_9 }
    ensures write_10 { Installs forward.view_10 forward.write_10 }
    ensures write_11 { Installs forward.view_11 forward.write_11 }
    ensures write_12 { Installs forward.view_12 forward.write_12 }
    ensures write_14 { Moves forward.view_14 forward.write_14 }
    ensures write_15 { Moves forward.view_15 forward.write_15 }
    ensures write_16 { Moves forward.view_16 forward.write_16 }
    ensures write_17 { Moves forward.view_17 forward.write_17 }
    ensures write_20 { Moves forward.view_20 forward.write_20 }
    ensures write_25 { Installs forward.view_25 forward.write_25 }
    ensures write_26 { Installs forward.view_26 forward.write_26 }
    ensures write_27 { Installs forward.view_27 forward.write_27 }
    ensures write_28 { Installs forward.view_28 forward.write_28 }
    ensures write_29 { Installs forward.view_29 forward.write_29 }
    ensures write_30 { Installs forward.view_30 forward.write_30 }
    ensures write_32 { Moves forward.view_32 forward.write_32 }
    ensures write_33 { Moves forward.view_33 forward.write_33 }
    ensures write_34 { Moves forward.view_34 forward.write_34 }
    ensures write_35 { Moves forward.view_35 forward.write_35 }
    ensures write_36 { Moves forward.view_36 forward.write_36 }
    ensures write_38 { Moves forward.view_38 forward.write_38 }
    ensures write_45 { Installs forward.view_45 forward.write_45 }
    ensures write_46 { Installs forward.view_46 forward.write_46 }
    ensures write_47 { Installs forward.view_47 forward.write_47 }
    ensures write_48 { Installs forward.view_48 forward.write_48 }
    ensures write_49 { Installs forward.view_49 forward.write_49 }
    ensures write_50 { Installs forward.view_50 forward.write_50 }
    ensures write_52 { Moves forward.view_52 forward.write_52 }
    ensures write_53 { Moves forward.view_53 forward.write_53 }
    ensures write_54 { Moves forward.view_54 forward.write_54 }
    ensures write_55 { Moves forward.view_55 forward.write_55 }
    ensures write_56 { Moves forward.view_56 forward.write_56 }
    ensures write_59 { Moves forward.view_59 forward.write_59 }
    ensures write_61 { Moves forward.view_61 forward.write_61 }
    ensures write_62 { Moves forward.view_62 forward.write_62 }
    ensures write_63 { Moves forward.view_63 forward.write_63 }
    ensures write_64 { Moves forward.view_64 forward.write_64 }
{}

/// Each write of the installer and of phases in the row manual is the first that the definitions give in its view.
pub fn manual_row()
    ensures write_7 { Installs manual.view_7 manual.write_7 }
    ensures write_8 { Installs manual.view_8 manual.write_8 }
    ensures write_9 { Installs manual.view_9 manual.write_9 }
    ensures write_10 { Installs manual.view_10 manual.write_10 }
    ensures write_11 { Installs manual.view_11 manual.write_11 }
    ensures write_12 { Installs manual.view_12 manual.write_12 }
    ensures write_13 { Installs manual.view_13 manual.write_13 }
    ensures write_14 { Installs manual.view_14 manual.write_14 }
    ensures write_16 { Moves manual.view_16 manual.write_16 }
    ensures write_17 { Moves manual.view_17 manual.write_17 }
    ensures write_18 { Moves manual.view_18 manual.write_18 }
    ensures write_19 { Moves manual.view_19 manual.write_19 }
{}

/// Each write of the installer and of phases in the row lost is the first that the definitions give in its view.
pub fn lost_row()
    ensures write_5 { Installs lost.view_5 lost.write_5 }
    ensures write_6 { Installs lost.view_6 lost.write_6 }
    ensures write_7 { Installs lost.view_7 lost.write_7 }
    ensures write_9 { Installs lost.view_9 lost.write_9 }
    ensures write_10 { Installs lost.view_10 lost.write_10 }
{}
